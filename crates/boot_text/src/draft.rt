// The plan that the lines so far say.
ghost use Rattle.std.specs.Prelude.{◌≡◌, [], true, false, OnOk, IfOk, IfErr, not, slice_get};
ghost use Rattle.boot_text.specs.BootText.{ends, SaysPlan, IsFault};
ghost use Rattle.boot_text.specs.Sums.{with_unit, with_line, with_end};
ghost use Rattle.std.specs.List.{list_any};
ghost use Rattle.boot_text.specs.SoFar.{adds, kind_of, follows, offence as offence_of, partition_offence as partition_offence_of, server_offence as server_offence_of, client_offence as client_offence_of, port_offence as port_offence_of, script_offence as script_offence_of, is_over as is_over_of, exceeds as is_above, has_server as has_server_unit, is_served as serves, is_named as names_it, is_server, is_port, is_unit, pages_of, names, nothing, unit_id};

use crate::cause::{Cause, PlanFault};
use crate::cost::{MOST_COST, cost_of, is_over_cost};
use crate::keyword::Keyword;
use crate::names::Name;
use crate::place::{may_follow, suits};
use crate::plan::{
    Line, MOST_PAGES, MOST_PARTITIONS, MOST_PORTS, MOST_UNITS, Partition, Plan, SERVER_PAGES,
    UnitPlan,
};
use crate::statement::Statement;
use crate::verb::Verb;
use std::alloc::Global;
use std::marker::Model;
use std::mem;
use vio_num::{NoMemory, Sequence, UnitId};

/// The plan that the lines so far say.
#[derive(Drop)]
pub struct Draft {
    alloc: Global,
    last: Keyword,
    rounds: u32,
    grant: u8,
    ended: Vec<Partition>,
    units: Vec<UnitPlan>,
    lines: Vec<Line>,
    ports: u64,
    pages: u64,
    cost: u64,
}

impl Model for Draft {
    ghost use Rattle.boot_text.specs.SoFar.{SoFar};
    ghost use Rattle.boot_text.specs.Sums.{AreSums};

    ghost Value = { SoFar };

    ghost view = { λ draft. record {
      last = draft.last;
      rounds = draft.rounds;
      grant = draft.grant;
      ended = draft.ended.items;
      units = draft.units.items;
      lines = draft.lines.items;
    } };

    ghost invariant = { λ draft. AreSums (record {
      last = draft.last;
      rounds = draft.rounds;
      grant = draft.grant;
      ended = draft.ended.items;
      units = draft.units.items;
      lines = draft.lines.items;
    }) draft.ports draft.pages draft.cost };
}

impl Draft {
    /// The plan before any line but the first.
    pub fn new(alloc: Global) -> Draft
        ensures { result ≡ nothing }
    {
        Draft {
            alloc,
            last: Keyword::Version,
            rounds: 0,
            grant: 0,
            ended: Vec::new(alloc),
            units: Vec::new(alloc),
            lines: Vec::new(alloc),
            ports: 0,
            pages: 0,
            cost: 0,
        }
    }

    /// Whether a line of this kind may stand here.
    pub fn may_take(&self, next: Keyword) -> bool
        ensures { result ≡ follows self.now.last next }
    {
        may_follow(self.last, next)
    }

    /// What is wrong with a line behind those so far, the first cause that stands.
    pub fn offence(&self, statement: &Statement) -> Option<Cause>
        ensures { result ≡ offence_of self.now statement.now }
    {
        match statement {
            Statement::Partition => self.partition_offence(),
            Statement::Server { .. } => self.server_offence(),
            Statement::Client { server, pages, .. } => self.client_offence(*server, *pages),
            Statement::Lan { pages, .. } => self.port_offence(*pages),
            Statement::Script { unit, verb } => self.script_offence(*unit, verb),
            _ => None,
        }
    }

    fn partition_offence(&self) -> Option<Cause>
        ensures { result ≡ partition_offence_of self.now }
    {
        if self.ended.len() as u64 == MOST_PARTITIONS {
            Some(Cause::Limit)
        } else {
            None
        }
    }

    fn server_offence(&self) -> Option<Cause>
        ensures { result ≡ server_offence_of self.now }
    {
        if self.exceeds(SERVER_PAGES, false) {
            Some(Cause::Limit)
        } else if self.has_other_unit() || self.had_server() {
            Some(Cause::Link)
        } else {
            None
        }
    }

    fn client_offence(&self, server: Name, pages: u16) -> Option<Cause>
        ensures { result ≡ client_offence_of self.now server pages }
    {
        if self.exceeds(pages, false) {
            Some(Cause::Limit)
        } else if self.has_server() || !self.is_served(server) || self.is_named(server) {
            Some(Cause::Link)
        } else {
            None
        }
    }

    fn port_offence(&self, pages: u16) -> Option<Cause>
        ensures { result ≡ port_offence_of self.now pages }
    {
        if self.exceeds(pages, true) {
            Some(Cause::Limit)
        } else if self.has_server() {
            Some(Cause::Link)
        } else {
            None
        }
    }

    fn script_offence(&self, unit: u64, verb: &Verb) -> Option<Cause>
        ensures { result ≡ script_offence_of self.now unit verb.now }
    {
        if self.has_server() {
            Some(Cause::Link)
        } else if !suits(verb, self.unit_at(unit)) {
            Some(Cause::Unit)
        } else if self.is_over(verb) {
            Some(Cause::Transfer)
        } else {
            None
        }
    }

    // Whether the script lines cost too much with one more.
    fn is_over(&self, verb: &Verb) -> bool
        ensures { result ≡ is_over_of self.now verb.now }
    {
        is_over_cost(self.cost, cost_of(verb, self.ports))
    }

    // Whether one more unit of so many pages is too many.
    fn exceeds(&self, pages: u16, port: bool) -> bool
        ensures { result ≡ is_above self.now pages port }
    {
        self.units.len() as u64 == MOST_UNITS
            || self.pages + u64::from(pages) > MOST_PAGES
            || port && self.ports == MOST_PORTS
    }

    // Whether the partition that has not ended has a server unit.
    fn has_server(&self) -> bool
        ensures { result ≡ has_server_unit self.now.units }
    {
        self.units.iter().any(|unit| unit.is_server())
    }

    // Whether the partition that has not ended has a unit that is no server unit.
    fn has_other_unit(&self) -> bool
        ensures { result ≡ list_any (λ unit. not (is_server unit)) self.now.units }
    {
        self.units.iter().any(|unit| !unit.is_server())
    }

    // Whether an earlier partition has a server unit.
    fn had_server(&self) -> bool
        ensures { result ≡ list_any (λ p. has_server_unit p.units) self.now.ended }
    {
        self.ended.iter().any(|partition| partition.has_server())
    }

    // The unit of this number of the partition that has not ended.
    fn unit_at(&self, number: u64) -> Option<UnitPlan>
        ensures { result ≡ slice_get self.now.units number }
    {
        self.units.get(number as usize).copied()
    }

    // Whether a server unit of this name stands in an earlier partition.
    fn is_served(&self, name: Name) -> bool
        ensures { result ≡ serves self.now name }
    {
        match self.ended.get(usize::from(name.partition)) {
            Some(partition) => partition.has_server_at(name.unit),
            None => false,
        }
    }

    // Whether a client names the server unit already.
    fn is_named(&self, name: Name) -> bool
        ensures { result ≡ names_it self.now name }
    {
        self.was_named(name) || self.has_client_of(name)
    }

    // Whether a client of an earlier partition names it.
    fn was_named(&self, name: Name) -> bool
        ensures { result ≡ list_any (λ p. list_any (names name) p.units) self.now.ended }
    {
        self.ended
            .iter()
            .any(|partition| partition.has_client_of(name))
    }

    // Whether a client of the partition that has not ended names it.
    fn has_client_of(&self, name: Name) -> bool
        ensures { result ≡ list_any (names name) self.now.units }
    {
        self.units.iter().any(|unit| unit.is_client_of(name))
    }

    /// The plan, if the text may end here; else the line of this number is missing.
    pub fn finish(self, line: u32) -> Result<Plan, PlanFault>
        ensures plan { IfOk result (SaysPlan (ends line self)) }
        ensures fault { IfErr result (IsFault (ends line self)) }
    {
        let Draft {
            alloc: _,
            last,
            rounds,
            grant,
            ended,
            units: _,
            lines: _,
            ports: _,
            pages: _,
            cost: _,
        } = self;
        match last {
            Keyword::End => Ok(Plan {
                rounds,
                grant,
                partitions: Sequence::from(ended),
            }),
            _ => Err(PlanFault::Refused {
                line,
                cause: Cause::Place,
            }),
        }
    }

    /// Adds a line of this number, which may stand here and with which nothing is wrong. Where memory runs out the
    /// draft is of no more use.
    pub fn add(&mut self, number: u32, statement: Statement) -> Result<(), NoMemory>
        requires place { follows self.old.last (kind_of statement) ≡ true }
        requires good { offence_of self.old statement ≡ None }
        ensures { OnOk result (self.new ≡ adds number statement self.old) }
    {
        match statement {
            Statement::Version => Ok(()),
            Statement::Rounds(rounds) => {
                self.set_rounds(rounds);
                Ok(())
            }
            Statement::Grant(grant) => {
                self.set_grant(grant);
                Ok(())
            }
            Statement::Partition => {
                self.begin();
                Ok(())
            }
            Statement::Server { queue } => self.add_unit(
                Keyword::Server,
                UnitPlan::Server { queue },
            ),
            Statement::Client {
                server,
                pages,
                queue,
            } => {
                let server = id_of(server);
                self.add_unit(
                    Keyword::Client,
                    UnitPlan::Client {
                        server,
                        pages,
                        queue,
                    },
                )
            }
            Statement::Lan { mac, pages, slots } => {
                self.add_unit(Keyword::Lan, UnitPlan::Lan { mac, pages, slots })
            }
            Statement::Script { unit, verb } => self.add_line(number, unit, verb),
            Statement::End => self.end(),
        }
    }

    fn set_rounds(&mut self, rounds: u32)
        requires { follows self.old.last Keyword.Rounds ≡ true }
        ensures { self.new ≡ record self.old { last = Keyword.Rounds; rounds = rounds } }
    {
        self.last = Keyword::Rounds;
        self.rounds = rounds;
    }

    fn set_grant(&mut self, grant: u8)
        requires { follows self.old.last Keyword.Grant ≡ true }
        ensures { self.new ≡ record self.old { last = Keyword.Grant; grant = grant } }
    {
        self.last = Keyword::Grant;
        self.grant = grant;
    }

    // Begins a partition.
    fn begin(&mut self)
        requires { follows self.old.last Keyword.Partition ≡ true }
        ensures { self.new ≡ record self.old { last = Keyword.Partition } }
    {
        self.last = Keyword::Partition;
    }

    fn add_unit(&mut self, kind: Keyword, unit: UnitPlan) -> Result<(), NoMemory>
        requires kind { is_unit kind ≡ true }
        requires place { follows self.old.last kind ≡ true }
        requires few { is_above self.old (pages_of unit) (is_port unit) ≡ false }
        ensures { OnOk result (self.new ≡ with_unit kind unit self.old) }
    {
        self.units.push(unit)?;
        self.last = kind;
        self.ports += unit.ports();
        self.pages += u64::from(unit.pages());
        Ok(())
    }

    fn add_line(&mut self, number: u32, unit: u64, verb: Verb) -> Result<(), NoMemory>
        requires { script_offence_of self.old unit verb ≡ None }
        ensures { OnOk result (self.new ≡
            with_line (record { number = number; unit = unit; verb = verb }) self.old) }
    {
        let cost = cost_of(&verb, self.ports);
        self.lines.push(Line {
            number,
            unit: unit as u8,
            verb,
        })?;
        self.last = Keyword::Script;
        self.cost += cost;
        Ok(())
    }

    // Ends the partition.
    fn end(&mut self) -> Result<(), NoMemory>
        ensures { OnOk result (self.new ≡ with_end self.old) }
    {
        self.ended.reserve(1)?;
        let units = mem::replace(&mut self.units, Vec::new(self.alloc));
        let lines = mem::replace(&mut self.lines, Vec::new(self.alloc));
        self.ended.push_reserved(Partition {
            units: Sequence::from(units),
            lines: Sequence::from(lines),
        });
        self.last = Keyword::End;
        Ok(())
    }
}

// The unit that a name names.
fn id_of(name: Name) -> UnitId
    ensures { result ≡ unit_id name }
{
    UnitId {
        partition: name.partition,
        unit: name.unit,
    }
}
