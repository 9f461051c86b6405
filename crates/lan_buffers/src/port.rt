// The plain form of a port: its sessions as lists of posts, deliveries and harvests. The port law
// holds of each session.
ghost use Rattle.std.specs.Prelude.{◌≡◌, ◌↔◌, ◌+◌, ◌⊎◌, ◌≤◌, ◌<◌, [], ◌∷◌, ◌++◌, ℕ, All, Some, None, true, false, IsTrue, IfSome, IfNone, OnOk, OnErr, IfOk, length, slice_get, drop, vec_len, vec_capacity};
ghost use Rattle.vio_num.specs.declared.names.UnitId.{UnitId};
ghost use Rattle.lan_buffers.specs.Answers.{IfPosted, IfNoPlace, OnNotPosted, IfFrame, IfBlank, IfNothing, IfDone, IfUngranted, IfSentInUse, IsPlain, OnDropped, IsTried, OnFound, OnNothing, LeavesWindow};
ghost use Rattle.lan_buffers.specs.Buffer.{IsBuffer, buffer_len};
ghost use Rattle.lan_buffers.specs.Calls.{IsOpen, closed_port, CountsSession, IsFull, IsSmallest, IsTold, TakesBlank, drops_now, pool, BeginsSession, AcceptsTo, HasNoPlace, Posts, Reads, ReadsFrame, ReadsBlank, ReadsNothing, FindsBuffer, FindsNoSize, FindsNoBuffer, Delivers, OnlyDelivers, Drops, GivesBlank, FindsPageInUse, frame_address};
ghost use Rattle.lan_buffers.specs.Kept.{Takes, waits};
ghost use Rattle.lan_buffers.specs.Pools.{sizes_of};
ghost use Rattle.lan_buffers.specs.Port.{IsLawfulPort, StandBySession, last_session, now};

use crate::answers::{AddAnswer, Deliver, Harvest};
use crate::buffer::{FRAME_OFFSET, buffer_address, buffer_len, frame_told, is_buffer, toggle_of};
use crate::fill::{Fill, write_frame};
use crate::pools::Pools;
use crate::rows::{DeliverRow, HarvestRow, PostRow};
use crate::settings::Settings;
use crate::told::Told;
use arrayvec::ArrayVec;
use lan_frame::{Filters, MAX_FRAME, MIN_FRAME, accepts};
use page_slots::StrokeName;
use std::alloc::Global;
use std::marker::Model;
use tce_window::GuestPort;
use vio_num::{Mac, NoMemory, UnitId};

/// The plain form of a LAN unit's port. Each row is kept with the number of its session.
#[derive(Debug, Drop)]
pub struct PlainPort {
    unit: UnitId,
    slots: u32,
    settings: Option<Settings>,
    posts: Vec<PostRow>,
    posts_from: usize,
    deliveries: Vec<DeliverRow>,
    deliveries_from: usize,
    harvests: Vec<HarvestRow>,
    harvests_from: usize,
    drop_counts: Vec<u64>,
    pools: Pools,
}

impl Model for PlainPort {
    ghost use Rattle.std.specs.Prelude.{◌≡◌, ◌-◌, ◌≤◌, ◌==◌, ℕ, IsSome, filter, drop, length, min, vec_len, vec_capacity};
    ghost use Rattle.lan_buffers.specs.Port.{PortValue};
    ghost use Rattle.lan_buffers.specs.Present.{KeepsPort};

    ghost Value = { PortValue };

    ghost view = { λ port. record {
      unit = port.unit;
      slots = port.slots;
      settings = port.settings;
      posts = port.posts.items;
      deliveries = port.deliveries.items;
      harvests = port.harvests.items;
      drop_counts = port.drop_counts.items;
      spare = min port.pools.spare (min (vec_capacity port.posts - vec_len port.posts)
          (min (vec_capacity port.harvests - vec_len port.harvests)
          (vec_capacity port.drop_counts - vec_len port.drop_counts)));
    } };

    ghost invariant = { λ port. record {
      kept : KeepsPort port.slots (length port.drop_counts.items) port.posts.items port.posts_from
          port.deliveries.items port.deliveries_from port.harvests.items port.harvests_from
          port.pools;
      begun : IsSome port.settings → 1 ≤ length port.drop_counts.items;
    } };
}

impl PlainPort {
    /// A closed port of 1 to 1,024 slots, in no session and with no room reserved.
    pub fn open(alloc: Global, unit: UnitId, slots: u32) -> Result<PlainPort, NoMemory>
        requires { (1 ≤ slots) × (slots ≤ 1024) }
        ensures { IfOk result (λ port. port ≡ closed_port unit slots) }
    {
        Ok(PlainPort {
            unit,
            slots,
            settings: None,
            posts: Vec::new(alloc),
            posts_from: 0,
            deliveries: Vec::new(alloc),
            deliveries_from: 0,
            harvests: Vec::new(alloc),
            harvests_from: 0,
            drop_counts: Vec::new(alloc),
            pools: Pools::new(alloc)?,
        })
    }

    /// Makes room for this many begins, posts and harvests from now on.
    pub fn reserve(&mut self, n: u32) -> Result<(), NoMemory>
        ensures room { OnOk result (n ≤ self.new.spare) }
        ensures spare { self.old.spare ≤ self.new.spare }
        ensures rest { self.new ≡ record self.old { spare = self.new.spare } }
    {
        self.pools.reserve(n)?;
        self.posts.reserve(n as usize)?;
        self.harvests.reserve(n as usize)?;
        self.drop_counts.reserve(n as usize)?;
        Ok(())
    }

    /// Begins a session with this address. It is false exactly where the port is open, and then
    /// nothing changes.
    pub fn begin(&mut self, mac: Mac) -> bool
        requires room { 1 ≤ self.old.spare }
        ensures closed { IsTrue result ↔ (self.old.settings ≡ None) }
        ensures begun { IsTrue result → BeginsSession self.old mac self.new }
        ensures refused { result ≡ false → self.new ≡ self.old }
    {
        if self.settings.is_some() {
            return false;
        }
        self.drop_counts.push_reserved(0);
        self.posts_from = self.posts.len();
        self.deliveries_from = self.deliveries.len();
        self.harvests_from = self.harvests.len();
        self.pools.clear();
        self.settings = Some(Settings::first(mac));
        true
    }

    /// Ends the session; posts that no frame took are lost. Nobody else has a turn, so none is ever
    /// shown.
    pub fn end(&mut self) -> Option<u64>
        requires opened { IsOpen self.old }
        ensures none { result ≡ None }
        ensures ended { self.new ≡ record self.old { settings = None } }
    {
        self.settings = None;
        None
    }

    /// Whether the port is open.
    pub fn is_open(&self) -> bool
        ensures { IsTrue result ↔ IsOpen self.now }
    {
        self.settings.is_some()
    }

    /// What the port accepts; None exactly where it is closed.
    pub fn settings(&self) -> Option<Settings>
        ensures { result ≡ self.now.settings }
    {
        match &self.settings {
            Some(settings) => Some(settings.copied()),
            None => None,
        }
    }

    /// Makes these the settings of an open port.
    pub fn set(&mut self, settings: &Settings)
        requires opened { IsOpen self.old }
        ensures { self.new ≡ record self.old { settings = Some settings.now } }
    {
        self.settings = Some(settings.copied());
    }

    /// Whether a frame to this address is accepted; a closed port accepts none.
    pub fn accepts(&self, to: Mac) -> bool
        ensures { IsTrue result ↔ AcceptsTo self.now to }
    {
        match &self.settings {
            Some(settings) => settings.accept(to),
            None => false,
        }
    }

    /// Posts a buffer (LoPAR, "H_ADD_LOGICAL_LAN_BUFFER"). Every other answer changes nothing.
    pub fn add_buffer(&mut self, descriptor: u64, correlator: u64) -> AddAnswer
        requires opened { IsOpen self.old }
        requires room { 1 ≤ self.old.spare }
        ensures parameter { (result ≡ AddAnswer.Parameter) ↔ (¬ IsBuffer descriptor) }
        ensures resource { IfNoPlace result (λ posted harvested sizes.
            HasNoPlace self.old descriptor × CountsSession self.old posted harvested sizes) }
        ensures posted { IfPosted result (Posts self.old descriptor correlator self.new) }
        ensures place { IfPosted result (λ _. ¬ HasNoPlace self.old descriptor) }
        ensures refused { OnNotPosted result (self.new ≡ self.old) }
    {
        if !is_buffer(descriptor) {
            return AddAnswer::Parameter;
        }
        if self.has_no_place(buffer_len(descriptor)) {
            return AddAnswer::Resource {
                posted: self.posts_now().len() as u64,
                harvested: self.harvests_now().len() as u64,
                sizes: self.pools.sizes().len() as u8,
            };
        }
        AddAnswer::Posted {
            number: self.post(descriptor, correlator),
        }
    }

    // Tells whether there is no place for a buffer of this length.
    fn has_no_place(&self, len: u32) -> bool
        ensures { IsTrue result ↔ IsFull self.now len }
    {
        self.posts_now().len() == self.harvests_now().len() + self.slots as usize
            || self.pools.is_ninth(len)
    }

    // Posts a buffer for which there is a place, and gives its number.
    fn post(&mut self, descriptor: u64, correlator: u64) -> u64
        requires opened { IsOpen self.old }
        requires room { 1 ≤ self.old.spare }
        requires place { ¬ HasNoPlace self.old descriptor }
        ensures { Posts self.old descriptor correlator self.new result }
    {
        let session = self.session();
        let number = self.posts_now().len() as u64;
        self.pools.add(buffer_len(descriptor), number);
        self.posts.push_reserved(PostRow {
            session,
            descriptor,
            correlator,
        });
        number
    }

    /// Reads the next receive entry (LoPAR, "Receive queue"). Nothing comes exactly where each that
    /// a delivery made was read, and changes nothing.
    pub fn harvest(&mut self) -> Harvest
        requires room { 1 ≤ self.old.spare }
        ensures frame { IfFrame result (ReadsFrame self.old self.new) }
        ensures blank { IfBlank result (ReadsBlank self.old self.new) }
        ensures nothing { IfNothing result (ReadsNothing self.old) }
        ensures rest { IfNothing result (λ _ _. self.new ≡ self.old) }
    {
        let number = self.harvests_now().len() as u64;
        match self.told(number) {
            Some(told) => self.read(number, told),
            None => Harvest::Nothing {
                number,
                high: self.lapped(number),
            },
        }
    }

    // Keeps the receive entry of this number, which says this.
    fn read(&mut self, number: u64, told: Told) -> Harvest
        requires room { 1 ≤ self.old.spare }
        requires number { number ≡ length (now self.old).harvests }
        requires told { IsTold (now self.old) number told }
        ensures frame { IfFrame result (ReadsFrame self.old self.new) }
        ensures blank { IfBlank result (ReadsBlank self.old self.new) }
        ensures nothing { IfNothing result (λ _ _. ⊥) }
    {
        let session = self.session();
        let high = toggle_of(self.slots, number) + told.high();
        self.harvests.push_reserved(HarvestRow {
            session,
            high,
            low: told.correlator,
        });
        told.answer(number)
    }

    // Reads what the delivery of this number says, if there is one.
    fn told(&self, number: u64) -> Option<Told>
        ensures found { IfSome result (IsTold (now self.now) number) }
        ensures none { IfNone result (length (now self.now).deliveries ≤ number) }
    {
        match row_at(self.deliveries_now(), number) {
            Some(row) => Some(Told::of(row, self.posts_now())),
            None => None,
        }
    }

    // Finds what the slot of the next receive entry has, where each was read.
    fn lapped(&self, number: u64) -> u64
        requires number { number ≡ length (now self.now).harvests }
        requires read { number ≡ length (now self.now).deliveries }
        ensures { ReadsNothing self.now number result }
    {
        let slots = u64::from(self.slots);
        if number < slots {
            return 0;
        }
        match self.told(number - slots) {
            Some(told) => toggle_of(self.slots, number - slots) + told.high(),
            None => unreachable!(),
        }
    }

    /// Delivers a frame of 14 to 65,527 bytes to the oldest post of the smallest length that has
    /// room for it, under this name. Each answer but Done lays no stroke, and each but Done and
    /// Ungranted leaves the posts as they are. NoSize, NoBuffer and Ungranted count a dropped frame.
    pub fn deliver<G: GuestPort>(
        &mut self,
        window: &mut G,
        frame: &[u8],
        name: StrokeName,
    ) -> Deliver
        requires frame { (MIN_FRAME ≤ length frame.now) × (length frame.now ≤ MAX_FRAME) }
        requires free { (G.state window.old).held_count ≡ 0 }
        ensures plain { IsPlain result }
        ensures closed { (result ≡ Deliver.Closed 0) ↔ (self.old.settings ≡ None) }
        ensures no_size { (result ≡ Deliver.NoSize) ↔ FindsNoSize self.old (length frame.now) }
        ensures no_buffer { (result ≡ Deliver.NoBuffer)
            ↔ FindsNoBuffer self.old (length frame.now) }
        ensures found { OnFound result (FindsBuffer self.old (length frame.now)) }
        ensures done { IfDone result (Delivers self.old name frame.now self.new G.is_shared
            (G.state window.old) (G.state window.new)) }
        ensures ungranted { IfUngranted result (GivesBlank self.old name (length frame.now) self.new
            (G.state window.old) (G.state window.new)) }
        ensures in_use { IfSentInUse result (λ page word. FindsPageInUse self.old (length frame.now)
            G.is_shared (G.state window.old) (G.state window.new) page
            (G.found window.new page word)) }
        ensures dropped { OnDropped result (Drops self.old self.new) }
        ensures nothing { OnNothing result (self.new ≡ self.old) }
        ensures rest { OnlyDelivers self.old self.new }
        ensures window { LeavesWindow G.is_shared result (G.state window.old) (G.state window.new) }
    {
        if self.settings.is_none() {
            return Deliver::Closed { control: 0 };
        }
        let need = FRAME_OFFSET + frame.len() as u32;
        match self.pools.smallest(need) {
            Some(size) => self.offer(window, size, frame, name),
            None => self.drop_frame(need),
        }
    }

    // Counts a frame that no buffer takes, and tells whether one would have been long enough.
    fn drop_frame(&mut self, need: u32) -> Deliver
        requires opened { IsOpen self.old }
        ensures no_size { (result ≡ Deliver.NoSize)
            ↔ All (λ size. size < need) (sizes_of (now self.old).posts) }
        ensures no_buffer { (result ≡ Deliver.NoBuffer)
            ↔ (¬ All (λ size. size < need) (sizes_of (now self.old).posts)) }
        ensures answers { (result ≡ Deliver.NoSize) ⊎ (result ≡ Deliver.NoBuffer) }
        ensures dropped { Drops self.old self.new }
    {
        let are_below = self.pools.are_below(need);
        self.count_drop();
        if are_below {
            Deliver::NoSize
        } else {
            Deliver::NoBuffer
        }
    }

    // Counts a dropped frame of the session.
    fn count_drop(&mut self)
        requires opened { IsOpen self.old }
        ensures { Drops self.old self.new }
    {
        let last = self.drop_counts.len() - 1;
        self.drop_counts[last] = self.drop_counts[last].saturating_add(1);
    }

    // Offers the frame to the oldest post of this length, of which one waits.
    fn offer<G: GuestPort>(
        &mut self,
        window: &mut G,
        size: u32,
        frame: &[u8],
        name: StrokeName,
    ) -> Deliver
        requires opened { IsOpen self.old }
        requires frame { (MIN_FRAME ≤ length frame.now) × (length frame.now ≤ MAX_FRAME) }
        requires free { (G.state window.old).held_count ≡ 0 }
        requires chosen { IsSmallest (now self.old) (length frame.now) size }
        ensures found { OnFound result (FindsBuffer self.old (length frame.now)) }
        ensures tried { IsTried result }
        ensures done { IfDone result (Delivers self.old name frame.now self.new G.is_shared
            (G.state window.old) (G.state window.new)) }
        ensures ungranted { IfUngranted result (GivesBlank self.old name (length frame.now) self.new
            (G.state window.old) (G.state window.new)) }
        ensures in_use { IfSentInUse result (λ page word. FindsPageInUse self.old (length frame.now)
            G.is_shared (G.state window.old) (G.state window.new) page
            (G.found window.new page word)) }
        ensures nothing { OnNothing result (self.new ≡ self.old) }
        ensures rest { OnlyDelivers self.old self.new }
        ensures window { LeavesWindow G.is_shared result (G.state window.old) (G.state window.new) }
    {
        let session = self.session();
        let post = self.pools.oldest(size);
        let at = self.frame_address(post);
        match write_frame(&mut self.deliveries, window, at, frame, name) {
            Fill::Written(to) => {
                let row = DeliverRow {
                    session,
                    post,
                    name,
                    blank: false,
                    to,
                };
                take_post(&mut self.pools, &mut self.deliveries, size, row);
                Deliver::Done { post }
            }
            Fill::InUse { page, word } => Deliver::InUse { page, word },
            Fill::Refused(fault) => match self.give_blank(size, post, name) {
                Ok(()) => Deliver::Ungranted { post, fault },
                Err(NoMemory) => Deliver::NoMemory,
            },
            Fill::NoMemory => Deliver::NoMemory,
        }
    }

    // Gives the oldest post of this length back blank, and counts a dropped frame.
    fn give_blank(&mut self, size: u32, post: u64, name: StrokeName) -> Result<(), NoMemory>
        requires opened { IsOpen self.old }
        requires post { slice_get (pool size (now self.old)) 0 ≡ Some post }
        ensures blank { OnOk result (TakesBlank self.old post name self.new) }
        ensures nothing { OnErr result (self.new ≡ self.old) }
    {
        if self.deliveries.reserve(1).is_err() {
            return Err(NoMemory);
        }
        let row = DeliverRow {
            session: self.session(),
            post,
            name,
            blank: true,
            to: ArrayVec::new(),
        };
        take_post(&mut self.pools, &mut self.deliveries, size, row);
        self.count_drop();
        Ok(())
    }

    // Finds where the bytes of a frame lie that takes this post.
    fn frame_address(&self, post: u64) -> u64
        requires { post < length (now self.now).posts }
        ensures address { result ≡ frame_address (now self.now) post }
    {
        buffer_address(self.posts_now()[post as usize].descriptor) + u64::from(FRAME_OFFSET)
    }

    // Lends the posts of the session.
    fn posts_now(&self) -> &[PostRow]
        ensures { result.now ≡ (now self.now).posts }
    {
        rows_from(&self.posts, self.posts_from)
    }

    // Lends the deliveries of the session.
    fn deliveries_now(&self) -> &[DeliverRow]
        ensures rows { result.now ≡ (now self.now).deliveries }
        ensures named { All (λ row. row.post < length (now self.now).posts) result.now }
    {
        rows_from(&self.deliveries, self.deliveries_from)
    }

    // Lends the harvests of the session.
    fn harvests_now(&self) -> &[HarvestRow]
        ensures rows { result.now ≡ (now self.now).harvests }
        ensures few { length result.now ≤ length (now self.now).deliveries }
    {
        rows_from(&self.harvests, self.harvests_from)
    }

    /// The unit whose port it is.
    pub fn unit(&self) -> UnitId
        ensures { result ≡ self.now.unit }
    {
        self.unit
    }

    /// The number of slots.
    pub fn slots(&self) -> u32
        ensures { result ≡ self.now.slots }
    {
        self.slots
    }

    /// The number of the last session, 0 before the first.
    pub fn session(&self) -> u64
        ensures session { result ≡ last_session self.now }
        ensures law { IsLawfulPort self.now }
    {
        self.drop_counts.len() as u64
    }

    /// The number of dropped frames of the last session, 0 before the first.
    pub fn drops(&self) -> u64
        ensures { result ≡ drops_now self.now.drop_counts }
    {
        match self.drop_counts.last() {
            Some(count) => *count,
            None => 0,
        }
    }

    /// The buffers that were posted, in the order of time.
    pub fn posts(&self) -> &[PostRow]
        ensures rows { result.now ≡ self.now.posts }
        ensures order { StandBySession (λ (row : PostRow). row.session) (last_session self.now)
            result.now }
    {
        &self.posts
    }

    /// The frames and blanks that took a buffer, in the order of time.
    pub fn deliveries(&self) -> &[DeliverRow]
        ensures rows { result.now ≡ self.now.deliveries }
        ensures order { StandBySession (λ (row : DeliverRow). row.session) (last_session self.now)
            result.now }
    {
        &self.deliveries
    }

    /// The receive entries that were read, in the order of time.
    pub fn harvests(&self) -> &[HarvestRow]
        ensures rows { result.now ≡ self.now.harvests }
        ensures order { StandBySession (λ (row : HarvestRow). row.session) (last_session self.now)
            result.now }
    {
        &self.harvests
    }

    /// How many frames were dropped, of each session.
    pub fn drop_counts(&self) -> &[u64]
        ensures counts { result.now ≡ self.now.drop_counts }
    {
        &self.drop_counts
    }
}

// Lends the rows from this place on.
fn rows_from<T>(rows: &[T], from: usize) -> &[T]
    requires { from ≤ length rows.now }
    ensures { result.now ≡ drop from rows.now }
{
    rows.split_at(from).1
}

// Lends the row of this number, if there is one.
fn row_at(rows: &[DeliverRow], number: u64) -> Option<&DeliverRow>
    ensures found { IfSome result (λ row. slice_get rows.now number ≡ Some row.now) }
    ensures none { IfNone result (length rows.now ≤ number) }
{
    rows.get(number as usize)
}

// Takes the oldest post of this length for a delivery, for which there is room.
fn take_post(pools: &mut Pools, deliveries: &mut Vec<DeliverRow>, size: u32, row: DeliverRow)
    requires waits { 1 ≤ length (waits pools.old size) }
    requires room { vec_len deliveries.old < vec_capacity deliveries.old }
    ensures pools { Takes pools.old size pools.new }
    ensures rows { deliveries.new.items ≡ deliveries.old.items ++ row ∷ [] }
{
    pools.take(size);
    deliveries.push_reserved(row);
}
