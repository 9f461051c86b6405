// Scenarios of the buffers of a LAN port, of frames between ports, and of the lines that a port's script has.
#![tactic(auto)]

#[cfg(test)]
mod buffers;
#[cfg(test)]
mod scripts;
#[cfg(test)]
mod switching;
