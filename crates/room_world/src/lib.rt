//! A world of a schedule: clients, what waits between them and the server, and a server that stops.
#![tactic(auto)]

mod apart;
mod clients;
mod connections;
mod dialling;
mod draining;
mod opening;
mod sending;
mod serving;
mod steps;
mod world;

pub use room_host::HostFault as WorldFault;
pub use world::World;
