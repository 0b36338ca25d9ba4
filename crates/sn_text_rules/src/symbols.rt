//! The symbols of all texts, each by its place in the list `{ } ; , | ( ) : & + * / == != < <= > >= >>`.

/// `{`
pub const OPEN_BRACE: u8 = 0;

/// `}`
pub const CLOSE_BRACE: u8 = 1;

/// `;`
pub const SEMICOLON: u8 = 2;

/// `,`
pub const COMMA: u8 = 3;

/// `|`
pub const BAR: u8 = 4;

/// `(`
pub const OPEN: u8 = 5;

/// `)`
pub const CLOSE: u8 = 6;

/// `:`
pub const COLON: u8 = 7;

/// `&`
pub const AND: u8 = 8;

/// `+`
pub const PLUS: u8 = 9;

/// `*`
pub const TIMES: u8 = 10;

/// `/`
pub const OVER: u8 = 11;

/// `==`
pub const EQUAL: u8 = 12;

/// `!=`
pub const UNEQUAL: u8 = 13;

/// `<`
pub const LESS: u8 = 14;

/// `<=`
pub const AT_MOST: u8 = 15;

/// `>`
pub const GREATER: u8 = 16;

/// `>=`
pub const AT_LEAST: u8 = 17;

/// `>>`
pub const SHIFT: u8 = 18;
