//! Names that each justfile knows.
ghost use Rattle.std.specs.Prelude.{◌≡◌, length, map};
ghost use Rattle.just_value.specs.Constants.{constant_rows, row_of};

/// How many constants there are: the first so many numbers of bindings are theirs.
pub const CONSTANT_COUNT: u32 = 29;

/// Each constant's name and text, in the order of their numbers.
const CONSTANTS: [(&str, &str); 29] = [
    ("HEX", "0123456789abcdef"),
    ("HEXLOWER", "0123456789abcdef"),
    ("HEXUPPER", "0123456789ABCDEF"),
    ("PATH_SEP", "/"),
    ("PATH_VAR_SEP", ":"),
    ("CLEAR", "\x1bc"),
    ("NORMAL", "\x1b[0m"),
    ("BOLD", "\x1b[1m"),
    ("ITALIC", "\x1b[3m"),
    ("UNDERLINE", "\x1b[4m"),
    ("INVERT", "\x1b[7m"),
    ("HIDE", "\x1b[8m"),
    ("STRIKETHROUGH", "\x1b[9m"),
    ("BLACK", "\x1b[30m"),
    ("RED", "\x1b[31m"),
    ("GREEN", "\x1b[32m"),
    ("YELLOW", "\x1b[33m"),
    ("BLUE", "\x1b[34m"),
    ("MAGENTA", "\x1b[35m"),
    ("CYAN", "\x1b[36m"),
    ("WHITE", "\x1b[37m"),
    ("BG_BLACK", "\x1b[40m"),
    ("BG_RED", "\x1b[41m"),
    ("BG_GREEN", "\x1b[42m"),
    ("BG_YELLOW", "\x1b[43m"),
    ("BG_BLUE", "\x1b[44m"),
    ("BG_MAGENTA", "\x1b[45m"),
    ("BG_CYAN", "\x1b[46m"),
    ("BG_WHITE", "\x1b[47m"),
];

/// The names and texts of the constants, in the order of their numbers.
pub fn constants() -> &'static [(&'static str, &'static str)]
    ensures rows { map row_of result.now ≡ constant_rows }
    ensures count { length result.now ≡ CONSTANT_COUNT }
{
    &CONSTANTS
}
