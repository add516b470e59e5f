//! What the scripts in bench/ measure. The first argument says what:
//!
//! - `decode`: the decoder compared with a plain sum of the same longwords.
//! - `decode-file FILE`, `decode-object FILE`, `load-file FILE`: a file read to its end by the
//!   decoder of load files, by that of object files, by `ImageLoader`.
//! - `hunks ORDER`, `scan ORDER`: the most hunks that a load file may have, at bases in this order, which are checked with
//!   memory or without.
//!
//! The modules:
//!
//! - `words`: what `decode` measures.
//! - `count`: a taker that counts and sums words.
//! - `files`: what is measured of a file.
//! - `hunks`: what `hunks` and `scan` measure.
//!
//! It prints times, so bench/ runs it and the gate does not: without an argument it prints nothing.
#![tactic(auto)]

mod count;
mod files;
mod hunks;
mod words;

use hunks::Order;
use std::{env, io};

fn main(rt: HostRuntime) -> io::Result<()> {
    let given: Vec<String> = env::args(&rt)?.collect(rt.alloc())?;
    let (Some(what), name) = (given.get(1), given.get(2)) else {
        return Ok(());
    };
    match (what.as_str(), name) {
        ("decode", _) => words::measure(&rt),
        ("decode-file", Some(name)) => files::decode_file(&rt, name.as_str()),
        ("decode-object", Some(name)) => files::decode_object(&rt, name.as_str()),
        ("load-file", Some(name)) => files::load_file(&rt, name.as_str()),
        ("hunks", Some(name)) => hunks::measure(&rt, Order::named(name.as_str())),
        ("scan", Some(name)) => hunks::measure_scan(&rt, Order::named(name.as_str())),
        _ => Ok(()),
    }
}
