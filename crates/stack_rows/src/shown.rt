//! What a row comes to, in words.

use frame_stack::{Control, Prim};
use hs_base::{Exn, Mask, Value};
use std::fmt;

/// What a row comes to.
#[derive(Drop)]
pub struct Shown<'a> {
    pub steps: u64,
    pub control: &'a Control,
    pub mask: Mask,
    pub frames: u32,
}

impl fmt::Display for Shown<'_> {
    fn fmt<W: fmt::Write>(&self, f: &mut fmt::Formatter<W>) -> fmt::Result {
        write!(f, "{} rules, ", self.steps)?;
        show_control(self.control, f)?;
        write!(f, ", {}, {} frames", state(self.mask), self.frames)
    }
}

fn state(mask: Mask) -> &'static str {
    match mask {
        Mask::Unmasked => "Unmasked",
        Mask::Masked => "MaskedInterruptible",
        Mask::Uninterruptible => "MaskedUninterruptible",
    }
}

fn show_control<W: fmt::Write>(control: &Control, f: &mut fmt::Formatter<W>) -> fmt::Result {
    match control {
        Control::Doing(_, _) => write!(f, "doing"),
        Control::Ret(value) => {
            write!(f, "returns ")?;
            show_value(value, f)
        }
        Control::Throw(exn) => write!(f, "throws {}", exception(exn)),
        Control::Op(prim) => show_prim(prim, f),
    }
}

fn show_value<W: fmt::Write>(value: &Value, f: &mut fmt::Formatter<W>) -> fmt::Result {
    match value {
        Value::Unit => write!(f, "()"),
        Value::Int(n) => write!(f, "{n}"),
        Value::Bool(b) => write!(f, "{b}"),
        Value::Text(text) => write!(f, "{}", text.as_str()),
        Value::Exn(exn) => write!(f, "{}", exception(exn)),
        _ => write!(f, "a value"),
    }
}

fn exception(exn: &Exn) -> &str {
    match exn {
        Exn::ErrorCall(text) => text.as_str(),
        Exn::ThreadKilled => "ThreadKilled",
        Exn::UserInterrupt => "UserInterrupt",
        Exn::DivideByZero => "DivideByZero",
        Exn::Overflow => "Overflow",
        Exn::Timeout(_) => "Timeout",
        Exn::TextLimit => "TextLimit",
        Exn::BlockedIndefinitely => "BlockedIndefinitely",
    }
}

fn show_prim<W: fmt::Write>(prim: &Prim, f: &mut fmt::Formatter<W>) -> fmt::Result {
    match prim {
        Prim::PutStr(text) => write!(f, "putStr {}", text.as_str()),
        Prim::PutStrLn(text) => write!(f, "putStrLn {}", text.as_str()),
        Prim::HPutStrLn(text) => write!(f, "hPutStrLn {}", text.as_str()),
        Prim::NewMVar(value) => {
            write!(f, "newMVar ")?;
            show_value(value, f)
        }
        Prim::NewEmptyMVar => write!(f, "newEmptyMVar"),
        Prim::TakeMVar(cell) => write!(f, "takeMVar {cell}"),
        Prim::PutMVar(cell, _) => write!(f, "putMVar {cell}"),
        Prim::ReadMVar(cell) => write!(f, "readMVar {cell}"),
        Prim::TryTakeMVar(cell) => write!(f, "tryTakeMVar {cell}"),
        Prim::TryPutMVar(cell, _) => write!(f, "tryPutMVar {cell}"),
        Prim::MyThreadId => write!(f, "myThreadId"),
        Prim::GetMaskingState => write!(f, "getMaskingState"),
        Prim::ClockMicros => write!(f, "clockMicros"),
        Prim::ThreadDelay(micros) => write!(f, "threadDelay {micros}"),
        Prim::ThrowTo(thread, exn) => write!(f, "throwTo {thread} {}", exception(exn)),
        Prim::NewTimeout => write!(f, "newTimeout"),
        Prim::Acquired => write!(f, "acquired"),
        Prim::Release(number) => write!(f, "release {number}"),
        Prim::Fork(_, _) => write!(f, "forkIO"),
        Prim::ForkUnmask(_, _) => write!(f, "forkIOWithUnmask"),
    }
}
