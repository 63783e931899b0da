ghost use Rattle.std.specs.Prelude.{◌≡◌, ◌≤◌, ◌++◌, IfOk, OnOk, string_bytes};
ghost use Rattle.conc_task.specs.ring.Ring.{last_starter_line, main_line, place_lines, ring_text, starter_line, worker_line};

use hs_base::{NoMemory, Txt};
use std::alloc::{AllocError, Global};

/// The script of a ring: a number goes round `threads` threads, each adds its place to it, and what comes back is shown.
///
/// The only error is want of memory. The call takes time in proportion to the text, which has 822,640 bytes at 4,000
/// threads.
pub fn ring(alloc: Global, threads: u32) -> Result<Txt, NoMemory>
    requires some { 1 ≤ threads }
    requires few { threads ≤ 4000 }
    ensures { IfOk result (λ text. text ≡ ring_text threads) }
{
    let mut text = String::new(alloc);
    for place in 0..threads {
        write_place(&mut text, place)?;
    }
    write_last_starter(&mut text, threads)?;
    write_main(&mut text)?;
    Txt::from_string(text)
}

/// Writes the two lines of a place.
fn write_place(text: &mut String, place: u32) -> Result<(), AllocError>
    requires { place ≤ 4000 }
    ensures { OnOk result (string_bytes text.new ≡ string_bytes text.old ++ place_lines place) }
{
    write_worker(text, place)?;
    write_starter(text, place, place + 1)
}

/// The action of a thread: it adds its place to the number that comes.
#[tactic(auto, unfolding(crate::specs::ring::Ring::worker_line))]
fn write_worker(text: &mut String, place: u32) -> Result<(), AllocError>
    ensures { OnOk result (string_bytes text.new ≡ string_bytes text.old ++ worker_line place) }
{
    write!(
        text,
        "w{place} (a :: MVar Int) (b :: MVar Int) :: IO () = {{ x <- takeMVar a; putMVar b (x + {place}) }};\n"
    )
}

/// The action that starts a thread and goes on to the next place.
#[tactic(auto, unfolding(crate::specs::ring::Ring::starter_line))]
fn write_starter(text: &mut String, place: u32, next: u32) -> Result<(), AllocError>
    ensures { OnOk result (string_bytes text.new ≡ string_bytes text.old ++ starter_line place next) }
{
    write!(
        text,
        "s{place} (a :: MVar Int) (z :: MVar Int) :: IO () = {{ b <- newEmptyMVar @Int; _ <- forkIO {{ w{place} a b }}; s{next} b z }};\n"
    )
}

/// The action after the last place, which hands the number to the main thread.
#[tactic(auto, unfolding(crate::specs::ring::Ring::last_starter_line))]
fn write_last_starter(text: &mut String, threads: u32) -> Result<(), AllocError>
    ensures { OnOk result (string_bytes text.new ≡ string_bytes text.old ++ last_starter_line threads) }
{
    write!(
        text,
        "s{threads} (a :: MVar Int) (z :: MVar Int) :: IO () = {{ x <- takeMVar a; putMVar z x }};\n"
    )
}

/// The main action.
#[tactic(auto, unfolding(crate::specs::ring::Ring::main_line))]
fn write_main(text: &mut String) -> Result<(), AllocError>
    ensures { OnOk result (string_bytes text.new ≡ string_bytes text.old ++ main_line) }
{
    text.push_str(
        "main :: IO () = { a <- newMVar 0; z <- newEmptyMVar @Int; s0 a z; r <- takeMVar z; putStrLn (show r) };\n",
    )
}
