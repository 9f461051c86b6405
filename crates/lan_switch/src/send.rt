// A frame's way: it is read once from its sender's window, and offered to the ports that accept it.
ghost use Rattle.std.specs.Prelude.{◌≡◌, ◌↔◌, ◌≤◌, ◌<◌, ◌+◌, ◌%◌, ℕ, true, false, None, [], IfOk, IfErr, IfSome, IfNone, OnErr, IsTrue, length, slice_index, slice_get};
ghost use Rattle.vio_num.specs.declared.names.UnitId.{UnitId};
ghost use Rattle.lan_frame.specs.Station.{IsGroup};
ghost use Rattle.lan_switch.specs.Sending.{AnswersFrame, LosesFrame, SaysFrame, SaysOnly, code_after, is_numbered, one_code, source_code, with_frames, FailsToSend, GoesOut, OffersAt, StopsAt, to_of, unit_at, windows_of, IsOfferedAt, IsSenderPlace, IsSent, IsTarget, MakesFrame, offering};
ghost use Rattle.lan_switch.specs.Map.{KeepsOthers};
ghost use Rattle.lan_switch.specs.Source.{OnlyReadThrough};
ghost use Rattle.lan_switch.specs.Switch.{IsPort};

use crate::answers::{Offer, SendRecord};
use crate::map::{PortMap, PortWindow};
use crate::source::{MOST_PARTS, parts_len, parts_of, read_parts};
use crate::station::Station;
use crate::switch::PlainSwitch;
use arrayvec::ArrayVec;
use lan_buffers::{Deliver, PlainPort};
use lan_frame::{MAX_FRAME, MIN_FRAME, destination};
use page_slots::StrokeName;
use std::alloc::Global;
use tce_window::{GuestPort, HoldFault, Piece};
use vio_num::{Bytes, Hrc, Mac, NoMemory, UnitId};

/// The most offers that a frame has.
const MOST_OFFERS: usize = 15;

type Offers = ArrayVec<Offer, MOST_OFFERS>;

type Pieces = ArrayVec<Piece, 102>;

impl PlainSwitch {
    /// Sends a frame (LoPAR, "H_SEND_LOGICAL_LAN"), whose parts lie in the unit's window: to every other
    /// port that accepts it, in ascending order, if it is for a group, and else to the lowest of these
    /// alone. Where memory runs out the deliveries already made stand, and the frame's number is not given
    /// again.
    pub fn send<G: GuestPort, M: PortMap>(
        &mut self,
        unit: UnitId,
        window: &mut G,
        descriptors: &[u64; MOST_PARTS],
        others: &mut M,
    ) -> Result<SendRecord, NoMemory>
        requires window { (G.state window.old).held_count ≡ 0 }
        requires others { (other : UnitId) → (M.state others.old other).held_count ≡ 0 }
        ensures sent { IfOk result (IsSent self.old self.new unit descriptors.now
            G.is_shared (G.found window.new) (G.state window.old) (G.state window.new)
            (windows_of M.is_shared M.state M.found others.old others.new)) }
        ensures failed { OnErr result (FailsToSend self.old self.new unit descriptors.now
            (G.state window.old) (G.state window.new)
            (windows_of M.is_shared M.state M.found others.old others.new)) }
        ensures window { OnlyReadThrough G.is_shared (G.state window.old) (G.state window.new) }
        ensures others { (other : UnitId) → (M.state others.new other).held_count ≡ 0 }
    {
        let alloc = self.alloc;
        let parts = parts_of(descriptors);
        let Some(place) = self.sender_place(unit, parts) else {
            return Ok(SendRecord::only(alloc, Hrc::Parameter, None));
        };
        let mut frame = vec![in alloc; 0u8; parts_len(parts) as usize]?;
        let from = match read_parts(window, parts, frame.as_mut_slice()) {
            Ok(from) => from,
            Err(fault) => return Ok(SendRecord::only(alloc, source_code(fault), Some(fault))),
        };
        let Some(mark) = self.stations[place].frames.checked_add(1) else {
            return Err(NoMemory);
        };
        self.pass_on(
            others,
            bytes_of(frame),
            from,
            StrokeName { who: unit, mark },
        )
    }

    // Passes a frame that was read on to the other ports, and numbers it unless its one port was busy.
    fn pass_on<M: PortMap>(
        &mut self,
        others: &mut M,
        frame: Bytes,
        from: Pieces,
        name: StrokeName,
    ) -> Result<SendRecord, NoMemory>
        requires frame { (MIN_FRAME ≤ length frame) × (length frame ≤ MAX_FRAME) }
        requires sender { IsPort self.old name.who }
        requires free { (unit : UnitId) → (M.state others.old unit).held_count ≡ 0 }
        ensures answered { IfOk result (AnswersFrame self.old self.new name from.items frame
            (windows_of M.is_shared M.state M.found others.old others.new)) }
        ensures failed { OnErr result (LosesFrame self.old self.new name frame
            (windows_of M.is_shared M.state M.found others.old others.new)) }
        ensures free { (unit : UnitId) → (M.state others.new unit).held_count ≡ 0 }
    {
        let to = destination(frame.as_slice());
        match self.offer(others, frame.as_slice(), name, to) {
            Ok(offers) => {
                let code = code_of(to, offers.as_slice());
                if is_numbered(code) {
                    self.set_frames(name.who, name.mark);
                    Ok(SendRecord::numbered(code, name.mark, from, frame, offers))
                } else {
                    Ok(SendRecord::unnumbered(self.alloc, code, offers))
                }
            }
            Err(NoMemory) => {
                self.set_frames(name.who, name.mark);
                Err(NoMemory)
            }
        }
    }

    // Sets the number of frames of the unit, if it is a port.
    fn set_frames(&mut self, unit: UnitId, frames: u64)
        ensures { self.new ≡ with_frames unit frames self.old }
    {
        if let Some(place) = self.place(unit) {
            self.stations[place].frames = frames;
        }
    }

    // Finds the place of a registered unit, if these parts make a frame.
    fn sender_place(&self, unit: UnitId, parts: &[u64]) -> Option<usize>
        requires few { length parts.now ≤ MOST_PARTS }
        ensures found { IfSome result (λ place. IsSenderPlace self.now unit parts.now place) }
        ensures none { IfNone result (¬ MakesFrame self.now unit parts.now) }
    {
        let len = parts_len(parts);
        if len < MIN_FRAME as u64 || len > MAX_FRAME as u64 {
            return None;
        }
        let place = self.place(unit)?;
        if self.stations[place].port.is_open() {
            Some(place)
        } else {
            None
        }
    }

    // Offers the frame to each target in turn, or, if it is for one station, to the first alone.
    fn offer<M: PortMap>(
        &mut self,
        others: &mut M,
        frame: &[u8],
        name: StrokeName,
        to: Mac,
    ) -> Result<Offers, NoMemory>
        requires frame { (MIN_FRAME ≤ length frame.now) × (length frame.now ≤ MAX_FRAME) }
        requires to { to ≡ to_of frame.now }
        requires sender { IsPort self.old name.who }
        requires free { (unit : UnitId) → (M.state others.old unit).held_count ≡ 0 }
        ensures offered { IfOk result (λ offers. GoesOut (offering name frame.now
            (windows_of M.is_shared M.state M.found others.old others.new))
            self.old self.new offers.items) }
        ensures failed { OnErr result (StopsAt (offering name frame.now
            (windows_of M.is_shared M.state M.found others.old others.new)) self.old self.new) }
        ensures free { (unit : UnitId) → (M.state others.new unit).held_count ≡ 0 }
    {
        let mut offers = ArrayVec::new();
        for place in 0..self.stations.len() {
            if self.is_target(place, name.who, to) {
                match self.offer_at(place, others, frame, name) {
                    Ok(offer) => offers.push(offer),
                    Err(NoMemory) => return Err(NoMemory),
                }
                if !to.is_group() {
                    return Ok(offers);
                }
            }
        }
        Ok(offers)
    }

    // Tells whether the station at this place is another than the sender's and its port accepts the frame.
    fn is_target(&self, place: usize, sender: UnitId, to: Mac) -> bool
        requires { place < length self.now }
        ensures { (station : Station) → slice_get self.now place ≡ Some station
            → IsTrue result ↔ IsTarget sender to station }
    {
        is_target(&self.stations[place], sender, to)
    }

    // Offers the frame to the port at this place.
    fn offer_at<M: PortMap>(
        &mut self,
        place: usize,
        others: &mut M,
        frame: &[u8],
        name: StrokeName,
    ) -> Result<Offer, NoMemory>
        requires within { place < length self.old }
        requires frame { (MIN_FRAME ≤ length frame.now) × (length frame.now ≤ MAX_FRAME) }
        requires free { (unit : UnitId) → (M.state others.old unit).held_count ≡ 0 }
        ensures offered { IfOk result (OffersAt (offering name frame.now
            (windows_of M.is_shared M.state M.found others.old others.new))
            self.old self.new place) }
        ensures others { KeepsOthers (unit_at self.old place) (M.state others.old)
            (M.state others.new) }
        ensures memory { OnErr result (self.new ≡ self.old) }
        ensures free { (unit : UnitId) → (M.state others.new unit).held_count ≡ 0 }
    {
        let unit = self.stations[place].port.unit();
        let answer = deliver_to(&mut self.stations[place].port, others, unit, frame, name);
        offer_of(unit, answer)
    }
}

impl SendRecord {
    // A record of this code and this fault alone.
    fn only(alloc: Global, code: Hrc, fault: Option<HoldFault>) -> SendRecord
        ensures { SaysOnly code fault result }
    {
        SendRecord {
            code,
            frame: None,
            fault,
            from: ArrayVec::new(),
            bytes: Bytes::new(alloc),
            offers: ArrayVec::new(),
        }
    }

    // The record of a frame that has a number.
    fn numbered(code: Hrc, mark: u64, from: Pieces, bytes: Bytes, offers: Offers) -> SendRecord
        ensures says { SaysFrame true mark from.items bytes result }
        ensures code { result.code ≡ code }
        ensures fault { result.fault ≡ None }
        ensures offers { result.offers.items ≡ offers.items }
    {
        SendRecord {
            code,
            frame: Some(mark),
            fault: None,
            from,
            bytes,
            offers,
        }
    }

    // The record of a frame that has none.
    fn unnumbered(alloc: Global, code: Hrc, offers: Offers) -> SendRecord
        ensures says { SaysFrame false 0 [] [] result }
        ensures code { result.code ≡ code }
        ensures fault { result.fault ≡ None }
        ensures offers { result.offers.items ≡ offers.items }
    {
        SendRecord {
            offers,
            ..SendRecord::only(alloc, code, None)
        }
    }
}

// Gives the offer of a port that made this of a frame, if memory was there.
fn offer_of(unit: UnitId, answer: Deliver) -> Result<Offer, NoMemory>
    ensures ok { IfOk result (λ offer. (offer.unit ≡ unit) × (offer.answer ≡ answer)
        × (¬ (answer ≡ Deliver.NoMemory))) }
    ensures memory { OnErr result (answer ≡ Deliver.NoMemory) }
{
    match answer {
        Deliver::NoMemory => Err(NoMemory),
        answer => Ok(Offer { unit, answer }),
    }
}

// Offers the frame to a port, through the window of its unit.
fn deliver_to<M: PortMap>(
    port: &mut PlainPort,
    others: &mut M,
    unit: UnitId,
    frame: &[u8],
    name: StrokeName,
) -> Deliver
    requires frame { (MIN_FRAME ≤ length frame.now) × (length frame.now ≤ MAX_FRAME) }
    requires free { (M.state others.old unit).held_count ≡ 0 }
    ensures offered { IsOfferedAt (offering name frame.now
        (windows_of M.is_shared M.state M.found others.old others.new)) unit
        port.old port.new result }
    ensures others { KeepsOthers unit (M.state others.old) (M.state others.new) }
    ensures unit { port.new.unit ≡ port.old.unit }
{
    let mut window = PortWindow { others, unit };
    port.deliver(&mut window, frame, name)
}

// Tells whether the station is another than the sender's and its port accepts the frame.
fn is_target(station: &Station, sender: UnitId, to: Mac) -> bool
    ensures { IsTrue result ↔ IsTarget sender to station.now }
{
    !station.is_of(sender) && station.port.accepts(to)
}

// Keeps the items as bytes.
fn bytes_of(items: Vec<u8>) -> Bytes
    ensures { result ≡ items.items }
{
    Bytes::from(items)
}

// Gives the code of a source that was refused.
fn source_code(fault: HoldFault) -> Hrc
    ensures { result ≡ source_code fault }
{
    match fault {
        HoldFault::InUse { .. } => Hrc::Busy,
        _ => Hrc::SourceParm,
    }
}

// Gives the code of a frame with these offers.
fn code_of(to: Mac, offers: &[Offer]) -> Hrc
    ensures group { IsGroup to → result ≡ Hrc.Success }
    ensures one { ¬ IsGroup to → result ≡ one_code offers.now }
{
    if to.is_group() {
        return Hrc::Success;
    }
    match offers.first() {
        Some(offer) => code_after(offer.answer),
        None => Hrc::Dropped,
    }
}

// Gives the code of a frame to one station, whose port made this of it.
fn code_after(answer: Deliver) -> Hrc
    ensures { result ≡ code_after answer }
{
    match answer {
        Deliver::Done { .. } => Hrc::Success,
        Deliver::Turn { .. } | Deliver::InUse { .. } => Hrc::Busy,
        _ => Hrc::Dropped,
    }
}

// Tells whether a frame with this code has a number.
fn is_numbered(code: Hrc) -> bool
    ensures { result ≡ is_numbered code }
{
    code == Hrc::Success || code == Hrc::Dropped
}
