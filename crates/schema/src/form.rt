// Which form of the core schema's table a scalar has: one pass of an automaton over its bytes. (P2.)
ghost use Rattle.std.specs.Prelude.{◌≡◌};
ghost use Rattle.schema.specs.Form.{form_of};
ghost use Rattle.schema.specs.Automaton.{Tables, begins_no_row};

// Names so short that `FORMS` has eight to a line.
use Form::{Decimal, False, Float, Hexadecimal as Hex, Null, Octal, Other, True};

// `Float` is a number with a point or an exponent, an infinity, or not a number.
#[derive(Clone, Copy, Debug, PartialEq, Eq)]
pub enum Form {
    Null,
    True,
    False,
    Decimal,
    Octal,
    Hexadecimal,
    Float,
    Other,
}

// The symbol of each byte, a letter from '.' on: bytes that no expression tells apart have one symbol.
const SYMBOLS: [u8; 256] = *b"\
    ................................\
    ...........0./1.2333333344......\
    .;<<<=>..@..B.D...FHJL..........\
    .78889:..?..A.C5..EGIK..6.....M.\
    ................................\
    ................................\
    ................................\
    ................................";

const FIRST_SYMBOL: u8 = b'.';

// The automaton: a line for each state and a column for each symbol, with the next state, a letter from ',' on. A state
// stands for what the rows still await after a text, which stands behind its line. So after "0", in the state 0, a point
// leads to 3, as after ".0"; a digit to 1, as after "1"; an o to 7 and an x to 9; an e or E to 4; and any other byte to the
// state that awaits nothing, which is `.`. That each entry is right is proved from the expressions (proofs/Automaton.antt).
const NEXT: [[u8; 32]; 48] = [
    // a byte of each column's symbol:
    // !-+.018oxabefABEFiIlLnNrRsStTuU~
    *b"....333..........;<.............", // , after "+."
    *b"...,111.........................", // - after "+"
    *b"................................", // . after "?"
    *b".--2011.....S...T....EF....LM..K", // / after ""
    *b"...311179..4...4................", // 0 after "0"
    *b"...3111....4...4................", // 1 after "1"
    *b"....333..........;<..@A.........", // 2 after "."
    *b"....333....4...4................", // 3 after ".0"
    *b".55.666.........................", // 4 after "0e"
    *b"....666.........................", // 5 after "0e+"
    *b"....666.........................", // 6 after "0e0"
    *b"....88..........................", // 7 after "0o"
    *b"....88..........................", // 8 after "0o0"
    *b"....:::..::::::::...............", // 9 after "0x"
    *b"....:::..::::::::...............", // : after "0x0"
    *b".....................=..........", // ; after ".i"
    *b".....................=>.........", // < after ".I"
    *b"............?...................", // = after ".in"
    *b"................?...............", // > after ".IN"
    *b"................................", // ? after ".inf"
    *b".........B......................", // @ after ".n"
    *b".........C...C..................", // A after ".N"
    *b".....................D..........", // B after ".na"
    *b"......................D.........", // C after ".NA"
    *b"................................", // D after ".nan"
    *b".............................G..", // E after "n"
    *b".............................GH.", // F after "N"
    *b"...................I............", // G after "nu"
    *b"....................J...........", // H after "NU"
    *b"...................K............", // I after "nul"
    *b"....................K...........", // J after "NUL"
    *b"................................", // K after "null"
    *b".......................N........", // L after "t"
    *b".......................NO.......", // M after "T"
    *b".............................P..", // N after "tr"
    *b"..............................Q.", // O after "TR"
    *b"...........R....................", // P after "tru"
    *b"...............R................", // Q after "TRU"
    *b"................................", // R after "true"
    *b".........U......................", // S after "f"
    *b".........U...V..................", // T after "F"
    *b"...................W............", // U after "fa"
    *b"....................X...........", // V after "FA"
    *b".........................Y......", // W after "fal"
    *b"..........................Z.....", // X after "FAL"
    *b"...........[....................", // Y after "fals"
    *b"...............[................", // Z after "FALS"
    *b"................................", // [ after "false"
];

const FIRST_STATE: u8 = b',';

// The state before the first byte, the letter `/`.
const START: usize = 3;

// The state that awaits nothing, the letter `.`.
const DEAD: usize = 2;

// The form of a scalar that ends in each state.
const FORMS: [Form; 48] = [
    Other, Other, Other, Null, Decimal, Decimal, Other, Float, // , - . / 0 1 2 3
    Other, Other, Float, Other, Octal, Other, Hex, Other, // 4 5 6 7 8 9 : ;
    Other, Other, Other, Float, Other, Other, Other, Other, // < = > ? @ A B C
    Float, Other, Other, Other, Other, Other, Other, Null, // D E F G H I J K
    Other, Other, Other, Other, Other, Other, True, Other, // L M N O P Q R S
    Other, Other, Other, Other, Other, Other, Other, False, // T U V W X Y Z [
];

// Whether `b` is a letter that no row begins with: any but f, n and t.
#[tactic(auto, unfolding(crate::specs::Automaton::begins_no_row))]
fn begins_no_row(b: u8) -> bool
    ensures { result ≡ begins_no_row b }
{
    matches!(
        b,
        b'a'..=b'e'
            | b'g'..=b'm'
            | b'o'..=b's'
            | b'u'..=b'z'
            | b'A'..=b'E'
            | b'G'..=b'M'
            | b'O'..=b'S'
            | b'U'..=b'Z'
    )
}

// The form of `value`: that of the first row of the table that matches it. Most scalars are words, and their first letter tells.
#[tactic(auto, using(crate::proofs::Flags::letter_stops))]
pub fn form_of(value: &[u8]) -> Form
    ensures { result ≡ form_of value.now }
{
    match value.first() {
        Some(&b) if begins_no_row(b) => Form::Other,
        _ => scanned(value),
    }
}

// The form of `value` by the automaton whose tables are `symbols`, `next` and `forms`, whatever they are: the proof of a turn needs them as
// variables.
fn run_automaton(value: &[u8], symbols: &[u8], next: &[[u8; 32]], forms: &[Form]) -> Form
    requires { Tables symbols.now next.now forms.now }
    ensures { result ≡ form_of value.now }
{
    let mut state = START;
    for &b in value {
        let symbol = usize::from(symbols[usize::from(b)] - FIRST_SYMBOL);
        state = usize::from(next[state][symbol] - FIRST_STATE);
        if state == DEAD {
            return Form::Other;
        }
    }
    forms[state]
}

// The same by the automaton with the tables above; that they are `Tables` is proved here, by one test of each.
fn scanned(value: &[u8]) -> Form
    ensures { result ≡ form_of value.now }
{
    run_automaton(value, &SYMBOLS, &NEXT, &FORMS)
}
