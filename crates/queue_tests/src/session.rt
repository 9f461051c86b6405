// Scenarios on a plain and on a shared link through the calls of its ends, and the table of the handshake.
mod calls;
mod events;
mod handshakes;
mod inside;
mod lending;
mod shared;
mod sides;
mod threads;
