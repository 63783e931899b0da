//! The symbols, by number: the number of a symbol is its place in `TEXTS`.

/// `::`
pub const DOUBLE_COLON: u8 = 0;
/// `->`
pub const ARROW: u8 = 1;
/// `<-`
pub const LEFT_ARROW: u8 = 2;
/// `==`
pub const EQUAL_EQUAL: u8 = 3;
/// `/=`
pub const SLASH_EQUAL: u8 = 4;
/// `<=`
pub const LESS_EQUAL: u8 = 5;
/// `>=`
pub const GREATER_EQUAL: u8 = 6;
/// `&&`
pub const AND: u8 = 7;
/// `||`
pub const OR: u8 = 8;
/// `++`
pub const PLUS_PLUS: u8 = 9;
/// `=`
pub const EQUAL: u8 = 10;
/// `<`
pub const LESS: u8 = 11;
/// `>`
pub const GREATER: u8 = 12;
/// `+`
pub const PLUS: u8 = 13;
/// `-`
pub const MINUS: u8 = 14;
/// `*`
pub const STAR: u8 = 15;
/// `:`
pub const COLON: u8 = 16;
/// `;`
pub const SEMICOLON: u8 = 17;
/// `,`
pub const COMMA: u8 = 18;
/// `@`
pub const AT: u8 = 19;
/// `(`
pub const OPEN_PAREN: u8 = 20;
/// `)`
pub const CLOSE_PAREN: u8 = 21;
/// `[`
pub const OPEN_BRACKET: u8 = 22;
/// `]`
pub const CLOSE_BRACKET: u8 = 23;
/// `{`
pub const OPEN_BRACE: u8 = 24;
/// `}`
pub const CLOSE_BRACE: u8 = 25;

/// The symbols by their characters, in the order of their numbers. A longer one stands before each that begins it.
pub const TEXTS: [&[char]; 26] = [
    &[':', ':'],
    &['-', '>'],
    &['<', '-'],
    &['=', '='],
    &['/', '='],
    &['<', '='],
    &['>', '='],
    &['&', '&'],
    &['|', '|'],
    &['+', '+'],
    &['='],
    &['<'],
    &['>'],
    &['+'],
    &['-'],
    &['*'],
    &[':'],
    &[';'],
    &[','],
    &['@'],
    &['('],
    &[')'],
    &['['],
    &[']'],
    &['{'],
    &['}'],
];
