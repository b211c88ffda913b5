//! Hostile use: tables of cases, which are files of the folder in which the program is started. Of each case it prints the result
//! of a command over devices in memory, and its result where one call of a device fails.
#![tactic(auto)]

mod answers;
mod cases;
mod commands;
mod devices;
mod frames;
mod words;

use cases::print_case;
use std::{fs, io};

/// Replies to a driver, requests to a server, requests at the limits of what is accepted, devices that fail, and frames of version 2.
const TABLES: [&str; 5] = [
    "replies.txt",
    "requests.txt",
    "limits.txt",
    "devices.txt",
    "version_2.txt",
];

fn main(rt: HostRuntime) -> io::Result<()> {
    for table in TABLES {
        println!(rt; "= {table}")?;
        for case in fs::read_to_string(&rt, table)?.lines() {
            print_case(&rt, case)?;
        }
    }
    Ok(())
}
