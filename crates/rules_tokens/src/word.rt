//! The reserved words, by number: the number of a word is its place in `TEXTS`.

/// `True`
pub const TRUE: u8 = 0;
/// `False`
pub const FALSE: u8 = 1;
/// `Nothing`
pub const NOTHING: u8 = 2;
/// `Just`
pub const JUST: u8 = 3;
/// `Left`
pub const LEFT: u8 = 4;
/// `Right`
pub const RIGHT: u8 = 5;
/// `ErrorCall`
pub const ERROR_CALL: u8 = 6;
/// `ThreadKilled`
pub const THREAD_KILLED: u8 = 7;
/// `UserInterrupt`
pub const USER_INTERRUPT: u8 = 8;
/// `DivideByZero`
pub const DIVIDE_BY_ZERO: u8 = 9;
/// `Overflow`
pub const OVERFLOW: u8 = 10;
/// `Int`
pub const INT: u8 = 11;
/// `Bool`
pub const BOOL: u8 = 12;
/// `Text`
pub const TEXT: u8 = 13;
/// `ThreadId`
pub const THREAD_ID: u8 = 14;
/// `SomeException`
pub const SOME_EXCEPTION: u8 = 15;
/// `Maybe`
pub const MAYBE: u8 = 16;
/// `Either`
pub const EITHER: u8 = 17;
/// `MVar`
pub const MVAR: u8 = 18;
/// `IO`
pub const IO: u8 = 19;
/// `if`
pub const IF: u8 = 20;
/// `then`
pub const THEN: u8 = 21;
/// `else`
pub const ELSE: u8 = 22;
/// `case`
pub const CASE: u8 = 23;
/// `of`
pub const OF: u8 = 24;
/// `let`
pub const LET: u8 = 25;
/// `in`
pub const IN: u8 = 26;
/// `div`
pub const DIV: u8 = 27;
/// `mod`
pub const MOD: u8 = 28;
/// `not`
pub const NOT: u8 = 29;
/// `fst`
pub const FST: u8 = 30;
/// `snd`
pub const SND: u8 = 31;
/// `show`
pub const SHOW: u8 = 32;
/// `return`
pub const RETURN: u8 = 33;
/// `throwIO`
pub const THROW_IO: u8 = 34;
/// `putStr`
pub const PUT_STR: u8 = 35;
/// `putStrLn`
pub const PUT_STR_LN: u8 = 36;
/// `hPutStrLn`
pub const H_PUT_STR_LN: u8 = 37;
/// `stderr`
pub const STDERR: u8 = 38;
/// `newMVar`
pub const NEW_MVAR: u8 = 39;
/// `newEmptyMVar`
pub const NEW_EMPTY_MVAR: u8 = 40;
/// `takeMVar`
pub const TAKE_MVAR: u8 = 41;
/// `putMVar`
pub const PUT_MVAR: u8 = 42;
/// `readMVar`
pub const READ_MVAR: u8 = 43;
/// `tryTakeMVar`
pub const TRY_TAKE_MVAR: u8 = 44;
/// `tryPutMVar`
pub const TRY_PUT_MVAR: u8 = 45;
/// `modifyMVar_`
pub const MODIFY_MVAR: u8 = 46;
/// `forkIO`
pub const FORK_IO: u8 = 47;
/// `forkIOWithUnmask`
pub const FORK_IO_WITH_UNMASK: u8 = 48;
/// `myThreadId`
pub const MY_THREAD_ID: u8 = 49;
/// `throwTo`
pub const THROW_TO: u8 = 50;
/// `killThread`
pub const KILL_THREAD: u8 = 51;
/// `threadDelay`
pub const THREAD_DELAY: u8 = 52;
/// `clockMicros`
pub const CLOCK_MICROS: u8 = 53;
/// `getMaskingState`
pub const GET_MASKING_STATE: u8 = 54;
/// `catch`
pub const CATCH: u8 = 55;
/// `mask`
pub const MASK: u8 = 56;
/// `mask_`
pub const MASK_BLOCK: u8 = 57;
/// `uninterruptibleMask`
pub const UNINTERRUPTIBLE_MASK: u8 = 58;
/// `uninterruptibleMask_`
pub const UNINTERRUPTIBLE_MASK_BLOCK: u8 = 59;
/// `restore`
pub const RESTORE: u8 = 60;
/// `onException`
pub const ON_EXCEPTION: u8 = 61;
/// `bracket`
pub const BRACKET: u8 = 62;
/// `finally`
pub const FINALLY: u8 = 63;
/// `timeout`
pub const TIMEOUT: u8 = 64;
/// `Async`
pub const ASYNC: u8 = 65;
/// `withAsync`
pub const WITH_ASYNC: u8 = 66;
/// `wait`
pub const WAIT: u8 = 67;
/// `cancel`
pub const CANCEL: u8 = 68;
/// `race`
pub const RACE: u8 = 69;
/// `concurrently`
pub const CONCURRENTLY: u8 = 70;

/// The words, in the order of their numbers.
pub const TEXTS: [&str; 71] = [
    "True",
    "False",
    "Nothing",
    "Just",
    "Left",
    "Right",
    "ErrorCall",
    "ThreadKilled",
    "UserInterrupt",
    "DivideByZero",
    "Overflow",
    "Int",
    "Bool",
    "Text",
    "ThreadId",
    "SomeException",
    "Maybe",
    "Either",
    "MVar",
    "IO",
    "if",
    "then",
    "else",
    "case",
    "of",
    "let",
    "in",
    "div",
    "mod",
    "not",
    "fst",
    "snd",
    "show",
    "return",
    "throwIO",
    "putStr",
    "putStrLn",
    "hPutStrLn",
    "stderr",
    "newMVar",
    "newEmptyMVar",
    "takeMVar",
    "putMVar",
    "readMVar",
    "tryTakeMVar",
    "tryPutMVar",
    "modifyMVar_",
    "forkIO",
    "forkIOWithUnmask",
    "myThreadId",
    "throwTo",
    "killThread",
    "threadDelay",
    "clockMicros",
    "getMaskingState",
    "catch",
    "mask",
    "mask_",
    "uninterruptibleMask",
    "uninterruptibleMask_",
    "restore",
    "onException",
    "bracket",
    "finally",
    "timeout",
    "Async",
    "withAsync",
    "wait",
    "cancel",
    "race",
    "concurrently",
];
