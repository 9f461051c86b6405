// The server of virtual SCSI: units that take requests from their clients' queues, serve them one behind the
// other on one image, and answer each of them once (SRP; LoPAR, "Virtual SCSI").
#![tactic(auto)]

mod answering;
mod answers;
mod cursor;
mod data_pieces;
mod disk;
mod fetching;
mod handing;
mod intake;
mod line;
mod logins;
mod ports;
mod records;
mod replies;
mod request;
mod server;
mod service;
mod serving;
mod site;
mod turning;
mod unit;

pub use server::{Finished, Server};
