//! The same on several threads, each with a pass of its own.
ghost use Rattle.std.specs.Prelude.{◌≡◌, ◌<◌, false, length};
ghost use Rattle.rz_config.specs.Plain.{plain_volume};
ghost use Rattle.rz_chronicle.specs.Kinds.{kind_of};

use crate::work::add_own;
use rz_chronicle::{Book, Naming, Pass};
use std::thread;
use std::thread::Threads;

/// Each adds events of its own word.
pub fn add_all<J: Naming + Send + Sync, R: Threads + Sync>(
    rt: &R,
    book: &Book<J>,
    passes: &mut [Pass<J>],
    count: u64,
)
    requires kind { J.kind ≡ kind_of false plain_volume }
    requires some { 0 < length passes.old }
{
    let threads = passes.len();
    thread::for_each_mut(
        rt,
        passes,
        threads,
        &move |_place: usize, pass: &mut Pass<J>|
            requires { J.kind ≡ kind_of false plain_volume }
        { add_own(book, pass, count) },
    );
}
