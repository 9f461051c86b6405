// A table of entries between an owner and guests: a script of their calls, and threads that make them.
mod holder;
mod play;
mod threads;
