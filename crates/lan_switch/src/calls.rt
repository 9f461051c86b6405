// The calls on one port of a switch: what each asks, and what it leaves (LoPAR, "Logical LAN hcalls").
ghost use Rattle.std.specs.Prelude.{◌≡◌, ◌↔◌, ◌≤◌, ◌%◌, [], ◌∷◌, Some, None, IfSome, IfOk, IfErr, IsTrue};
ghost use Rattle.std.specs.List.{Contains};
ghost use Rattle.lan_buffers.specs.Calls.{IsOpen, BeginsSession, HasNoPlace};
ghost use Rattle.lan_frame.specs.Control.{action_of};
ghost use Rattle.lan_frame.specs.Filters.{IsFullFor};
ghost use Rattle.lan_frame.specs.Station.{IsGroup};
ghost use Rattle.tce_window.specs.Port.{CountsHold};
ghost use Rattle.lan_switch.specs.Source.{OnlyReadThrough, RefusesRead};
ghost use Rattle.lan_switch.specs.Calls.{Acts, Adds, Controls, CountsCode, FindsNoFilter, HasNoFilter, IsMulticast, IsOwnAddress, IsPlainAnswer, IsRegistration, MayPost, NamesGroup, PostsAs, ReadsCorrelator, SetsControlled, SetsMac};

use crate::answers::LanAnswer;
use crate::source::read_range;
use byteorder::{BigEndian, ByteOrder};
use lan_buffers::{
    AddAnswer, PlainPort, Settings, buffer_address, buffer_len, is_buffer, is_valid,
};
use lan_frame::{Control, FilterAction, Filters, is_zero, read_control};
use tce_window::{GuestPort, HoldFault};
use vio_num::{Hrc, Mac};

// Bounds a page, in bytes.
const PAGE: u64 = 4096;
// Bounds the entry of a receive queue, in bytes.
const ENTRY: u64 = 16;

/// Registers the port: a session begins.
pub fn register(port: &mut PlainPort, list: u64, queue: u64, filters: u64, mac: Mac) -> LanAnswer
    requires room { 1 ≤ port.old.spare }
    ensures parameter { (result.code ≡ Hrc.Parameter)
        ↔ (¬ IsRegistration list queue filters mac port.old) }
    ensures resource { (result.code ≡ Hrc.Resource)
        ↔ (IsRegistration list queue filters mac port.old × IsOpen port.old) }
    ensures success { result.code ≡ Hrc.Success → BeginsSession port.old mac port.new }
    ensures refused { ¬ (result.code ≡ Hrc.Success) → port.new ≡ port.old }
    ensures plain { IsPlainAnswer (Hrc.Success ∷ Hrc.Parameter ∷ Hrc.Resource ∷ []) result }
    ensures unit { port.new.unit ≡ port.old.unit }
{
    if !is_registration(port, list, queue, filters, mac) {
        return LanAnswer::plain(Hrc::Parameter);
    }
    if !port.begin(mac) {
        return LanAnswer::plain(Hrc::Resource);
    }
    LanAnswer::plain(Hrc::Success)
}

// Tells whether a registration may be made.
fn is_registration(port: &PlainPort, list: u64, queue: u64, filters: u64, mac: Mac) -> bool
    ensures { IsTrue result ↔ IsRegistration list queue filters mac port.now }
{
    list % PAGE == 0
        && filters % PAGE == 0
        && is_valid(queue)
        && u64::from(buffer_len(queue)) == ENTRY * u64::from(port.slots())
        && is_own_address(mac)
}

// Tells whether a unit may have the address.
fn is_own_address(mac: Mac) -> bool
    ensures { IsTrue result ↔ IsOwnAddress mac }
{
    !mac.is_group() && !is_zero(mac)
}

/// Frees the port: its session ends.
pub fn free(port: &mut PlainPort) -> LanAnswer
    ensures parameter { (result.code ≡ Hrc.Parameter) ↔ (port.old.settings ≡ None) }
    ensures done { port.new ≡ record port.old { settings = None } }
    ensures plain { IsPlainAnswer (Hrc.Success ∷ Hrc.Parameter ∷ []) result }
    ensures unit { port.new.unit ≡ port.old.unit }
{
    if !port.is_open() {
        return LanAnswer::plain(Hrc::Parameter);
    }
    match port.end() {
        Some(word) => LanAnswer {
            code: Hrc::Busy,
            word,
        },
        None => LanAnswer::plain(Hrc::Success),
    }
}

/// Gives the port another address.
pub fn change_mac(port: &mut PlainPort, mac: Mac) -> LanAnswer
    ensures parameter { (result.code ≡ Hrc.Parameter)
        ↔ (¬ (IsOpen port.old × IsOwnAddress mac)) }
    ensures success { result.code ≡ Hrc.Success → SetsMac mac port.old port.new }
    ensures refused { ¬ (result.code ≡ Hrc.Success) → port.new ≡ port.old }
    ensures plain { IsPlainAnswer (Hrc.Success ∷ Hrc.Parameter ∷ []) result }
    ensures unit { port.new.unit ≡ port.old.unit }
{
    if !is_own_address(mac) {
        return LanAnswer::plain(Hrc::Parameter);
    }
    match port.settings() {
        Some(settings) => {
            port.set(&with_mac(settings, mac));
            LanAnswer::plain(Hrc::Success)
        }
        None => LanAnswer::plain(Hrc::Parameter),
    }
}

// Gives settings another address.
fn with_mac(settings: Settings, mac: Mac) -> Settings
    ensures { result ≡ record settings { mac = mac } }
{
    let Settings {
        reception,
        filtering,
        filters,
        ..
    } = settings;
    Settings {
        mac,
        reception,
        filtering,
        filters,
    }
}

/// Controls the port's filters.
pub fn multicast(port: &mut PlainPort, control: u64, mac: Mac) -> LanAnswer
    ensures parameter { (result.code ≡ Hrc.Parameter) ↔ (¬ IsMulticast control mac port.old) }
    ensures resource { result.code ≡ Hrc.Resource
        → IfSome port.old.settings (HasNoFilter control mac) }
    ensures not_found { result.code ≡ Hrc.NotFound
        → IfSome port.old.settings (FindsNoFilter control mac) }
    ensures full { IsMulticast control mac port.old
        → IfSome port.old.settings (HasNoFilter control mac) → result.code ≡ Hrc.Resource }
    ensures success { result.code ≡ Hrc.Success → SetsControlled control mac port.old port.new }
    ensures refused { ¬ (result.code ≡ Hrc.Success) → port.new ≡ port.old }
    ensures plain { IsPlainAnswer
        (Hrc.Success ∷ Hrc.Parameter ∷ Hrc.Resource ∷ Hrc.NotFound ∷ []) result }
    ensures unit { port.new.unit ≡ port.old.unit }
{
    let Some(mut settings) = port.settings() else {
        return LanAnswer::plain(Hrc::Parameter);
    };
    let Ok(asked) = read_control(control) else {
        return LanAnswer::plain(Hrc::Parameter);
    };
    if !may_act(asked.filter_action(), mac) {
        return LanAnswer::plain(Hrc::Parameter);
    }
    match act(&mut settings, asked, mac) {
        Hrc::Success => {
            port.set(&settings);
            LanAnswer::plain(Hrc::Success)
        }
        code => LanAnswer::plain(code),
    }
}

// Tells whether the action has the group that it names.
fn may_act(action: FilterAction, mac: Mac) -> bool
    ensures { IsTrue result ↔ (NamesGroup action → IsGroup mac) }
{
    match action {
        FilterAction::Add | FilterAction::Remove => mac.is_group(),
        FilterAction::Nothing | FilterAction::Clear => true,
    }
}

// Does to the settings what a control word asks for.
fn act(settings: &mut Settings, asked: Control, mac: Mac) -> Hrc
    ensures success { result ≡ Hrc.Success → Controls asked mac settings.old settings.new }
    ensures resource { result ≡ Hrc.Resource → (action_of asked.action ≡ FilterAction.Add)
        × IsFullFor mac settings.old.filters }
    ensures not_found { result ≡ Hrc.NotFound → (action_of asked.action ≡ FilterAction.Remove)
        × (¬ Contains settings.old.filters mac) }
    ensures full { action_of asked.action ≡ FilterAction.Add
        → IsFullFor mac settings.old.filters → result ≡ Hrc.Resource }
    ensures codes { Contains (Hrc.Success ∷ Hrc.Resource ∷ Hrc.NotFound ∷ []) result }
{
    settings.reception = asked.reception.unwrap_or(settings.reception);
    settings.filtering = asked.filtering.unwrap_or(settings.filtering);
    act_on(&mut settings.filters, asked.filter_action(), mac)
}

// Does to the filters what an action names.
fn act_on(filters: &mut Filters, action: FilterAction, mac: Mac) -> Hrc
    ensures success { result ≡ Hrc.Success → Acts action mac filters.old filters.new }
    ensures resource { result ≡ Hrc.Resource → (action ≡ FilterAction.Add)
        × IsFullFor mac filters.old }
    ensures not_found { result ≡ Hrc.NotFound → (action ≡ FilterAction.Remove)
        × (¬ Contains filters.old mac) }
    ensures full { action ≡ FilterAction.Add → IsFullFor mac filters.old → result ≡ Hrc.Resource }
    ensures codes { Contains (Hrc.Success ∷ Hrc.Resource ∷ Hrc.NotFound ∷ []) result }
{
    match action {
        FilterAction::Nothing => Hrc::Success,
        FilterAction::Add => filters.add(mac),
        FilterAction::Remove => filters.remove(mac),
        FilterAction::Clear => {
            filters.clear();
            Hrc::Success
        }
    }
}

/// Posts a buffer, whose correlator is read through the window.
pub fn add<G: GuestPort>(port: &mut PlainPort, window: &mut G, descriptor: u64) -> LanAnswer
    requires room { 1 ≤ port.old.spare }
    requires free { (G.state window.old).held_count ≡ 0 }
    ensures adds { Adds descriptor G.is_shared (G.found window.new) (G.state window.old)
        (G.state window.new) result port.old port.new }
    ensures window { OnlyReadThrough G.is_shared (G.state window.old) (G.state window.new) }
    ensures counts { CountsCode result.code (G.state window.old).in_use
        (G.state window.new).in_use }
    ensures unit { port.new.unit ≡ port.old.unit }
{
    if !port.is_open() || !is_buffer(descriptor) {
        return LanAnswer::plain(Hrc::Parameter);
    }
    match read_correlator(window, buffer_address(descriptor)) {
        Ok(correlator) => post(port, descriptor, correlator),
        Err(HoldFault::InUse { word, .. }) => LanAnswer {
            code: Hrc::Busy,
            word,
        },
        Err(_fault) => LanAnswer::plain(Hrc::Parameter),
    }
}

// Posts a buffer with the correlator that was read.
fn post(port: &mut PlainPort, descriptor: u64, correlator: u64) -> LanAnswer
    requires buffer { MayPost descriptor port.old }
    requires room { 1 ≤ port.old.spare }
    ensures resource { result.code ≡ Hrc.Resource → HasNoPlace port.old descriptor }
    ensures success { result.code ≡ Hrc.Success
        → PostsAs descriptor correlator port.old port.new }
    ensures refused { ¬ (result.code ≡ Hrc.Success) → port.new ≡ port.old }
    ensures plain { IsPlainAnswer (Hrc.Success ∷ Hrc.Resource ∷ []) result }
    ensures unit { port.new.unit ≡ port.old.unit }
{
    match port.add_buffer(descriptor, correlator) {
        AddAnswer::Posted { .. } => LanAnswer::plain(Hrc::Success),
        AddAnswer::Parameter => LanAnswer::plain(Hrc::Parameter),
        AddAnswer::Resource { .. } => LanAnswer::plain(Hrc::Resource),
    }
}

// Reads the number of the 8 bytes at this address of the window.
fn read_correlator<G: GuestPort>(window: &mut G, address: u64) -> Result<u64, HoldFault>
    requires free { (G.state window.old).held_count ≡ 0 }
    ensures read { IfOk result
        (ReadsCorrelator (G.state window.old) (G.state window.new) address) }
    ensures refused { IfErr result
        (RefusesRead G.is_shared (G.found window.new) (G.state window.old)
        (G.state window.new) address 8) }
    ensures window { OnlyReadThrough G.is_shared (G.state window.old) (G.state window.new) }
    ensures counts { CountsHold result (G.state window.old).in_use (G.state window.new).in_use }
{
    let mut bytes = [0; 8];
    read_range(window, address, &mut bytes)?;
    Ok(BigEndian::read_u64(&bytes))
}
