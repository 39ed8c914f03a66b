//! The table of the grammar in `LibertyGrammar.antt`: written by `tools/grammar.py`.

use pe_grammar::{Entry, Form};

// The terminals.
pub const LIBRARY: u16 = 0;

pub const WORD: u16 = 1;

pub const TEXT: u16 = 2;

pub const VALUE: u16 = 3;

pub const OPEN: u16 = 4;

pub const CLOSE: u16 = 5;

pub const BEGIN: u16 = 6;

pub const END: u16 = 7;

pub const COLON: u16 = 8;

pub const SEMI: u16 = 9;

pub const COMMA: u16 = 10;

pub const LINE: u16 = 11;

// The places.
pub const AT_LIBRARY: u16 = 0;

pub const AT_TOKEN_LIBRARY: u16 = 13;

pub const AT_LIBRARY_2: u16 = 14;

pub const AT_TOKEN_OPEN: u16 = 15;

pub const AT_LIBRARY_3: u16 = 16;

pub const AT_LIBRARY_4: u16 = 17;

pub const AT_TOKEN_CLOSE: u16 = 18;

pub const AT_BRACED: u16 = 1;

pub const AT_TOKEN_BEGIN: u16 = 19;

pub const AT_BRACED_2: u16 = 20;

pub const AT_BRACED_3: u16 = 21;

pub const AT_TOKEN_END: u16 = 22;

pub const AT_STATEMENTS: u16 = 2;

pub const AT_STATEMENT: u16 = 3;

pub const AT_MEANING: u16 = 4;

pub const AT_MEANING_PART_1: u16 = 23;

pub const AT_TOKEN_COLON: u16 = 24;

pub const AT_MEANING_PART_1_2: u16 = 25;

pub const AT_MEANING_PART_2: u16 = 26;

pub const AT_MEANING_PART_2_2: u16 = 27;

pub const AT_MEANING_PART_2_3: u16 = 28;

pub const AT_VALUES: u16 = 5;

pub const AT_TOKEN_VALUE: u16 = 29;

pub const AT_VALUES_PART_2: u16 = 30;

pub const AT_STOP: u16 = 6;

pub const AT_STOP_PART_1: u16 = 31;

pub const AT_TOKEN_SEMI: u16 = 32;

pub const AT_TOKEN_LINE: u16 = 33;

pub const AT_BODY: u16 = 7;

pub const AT_ENDING: u16 = 8;

pub const AT_ARGUMENTS: u16 = 9;

pub const AT_ARGUMENTS_PART_1: u16 = 35;

pub const AT_ARGUMENTS_PART_1_PART_2: u16 = 36;

pub const AT_NEXT: u16 = 10;

pub const AT_NEXT_PART_1: u16 = 37;

pub const AT_TOKEN_COMMA: u16 = 38;

pub const AT_ARGUMENT: u16 = 11;

pub const AT_TOKEN_TEXT: u16 = 39;

pub const AT_NAME: u16 = 12;

pub const AT_TOKEN_WORD: u16 = 40;

pub static LIBERTY: [Entry; 41] = [
    Entry {
        form: Form::Sequence(13, 14),
        nullable: false,
        first: 1,
        goes_on: 512,
        opened: 0,
        rank: 1,
        height: 8,
    },
    Entry {
        form: Form::Sequence(19, 20),
        nullable: false,
        first: 64,
        goes_on: 512,
        opened: 0,
        rank: 1,
        height: 4,
    },
    Entry {
        form: Form::Repeat(3),
        nullable: true,
        first: 3,
        goes_on: 2635,
        opened: 0,
        rank: 3,
        height: 0,
    },
    Entry {
        form: Form::Sequence(12, 4),
        nullable: false,
        first: 3,
        goes_on: 2632,
        opened: 0,
        rank: 2,
        height: 5,
    },
    Entry {
        form: Form::Choice(23, 26),
        nullable: false,
        first: 272,
        goes_on: 2632,
        opened: 0,
        rank: 2,
        height: 4,
    },
    Entry {
        form: Form::Sequence(29, 30),
        nullable: false,
        first: 8,
        goes_on: 8,
        opened: 0,
        rank: 1,
        height: 1,
    },
    Entry {
        form: Form::Choice(31, 34),
        nullable: true,
        first: 2560,
        goes_on: 2560,
        opened: 0,
        rank: 2,
        height: 1,
    },
    Entry {
        form: Form::Choice(1, 8),
        nullable: true,
        first: 576,
        goes_on: 576,
        opened: 0,
        rank: 2,
        height: 2,
    },
    Entry {
        form: Form::Choice(32, 34),
        nullable: true,
        first: 512,
        goes_on: 512,
        opened: 0,
        rank: 1,
        height: 1,
    },
    Entry {
        form: Form::Choice(35, 34),
        nullable: true,
        first: 7,
        goes_on: 1031,
        opened: 0,
        rank: 4,
        height: 1,
    },
    Entry {
        form: Form::Sequence(37, 11),
        nullable: false,
        first: 1031,
        goes_on: 0,
        opened: 0,
        rank: 3,
        height: 2,
    },
    Entry {
        form: Form::Choice(12, 39),
        nullable: false,
        first: 7,
        goes_on: 0,
        opened: 0,
        rank: 2,
        height: 1,
    },
    Entry {
        form: Form::Choice(13, 40),
        nullable: false,
        first: 3,
        goes_on: 0,
        opened: 0,
        rank: 1,
        height: 1,
    },
    Entry {
        form: Form::Terminal(0),
        nullable: false,
        first: 1,
        goes_on: 0,
        opened: 0,
        rank: 0,
        height: 0,
    },
    Entry {
        form: Form::Sequence(15, 16),
        nullable: false,
        first: 16,
        goes_on: 512,
        opened: 0,
        rank: 1,
        height: 7,
    },
    Entry {
        form: Form::Terminal(4),
        nullable: false,
        first: 16,
        goes_on: 0,
        opened: 0,
        rank: 0,
        height: 0,
    },
    Entry {
        form: Form::Sequence(9, 17),
        nullable: false,
        first: 39,
        goes_on: 512,
        opened: 0,
        rank: 5,
        height: 6,
    },
    Entry {
        form: Form::Sequence(18, 1),
        nullable: false,
        first: 32,
        goes_on: 512,
        opened: 0,
        rank: 1,
        height: 5,
    },
    Entry {
        form: Form::Terminal(5),
        nullable: false,
        first: 32,
        goes_on: 0,
        opened: 0,
        rank: 0,
        height: 0,
    },
    Entry {
        form: Form::Terminal(6),
        nullable: false,
        first: 64,
        goes_on: 0,
        opened: 0,
        rank: 0,
        height: 0,
    },
    Entry {
        form: Form::Sequence(2, 21),
        nullable: false,
        first: 131,
        goes_on: 512,
        opened: 0,
        rank: 4,
        height: 3,
    },
    Entry {
        form: Form::Sequence(22, 8),
        nullable: false,
        first: 128,
        goes_on: 512,
        opened: 0,
        rank: 1,
        height: 2,
    },
    Entry {
        form: Form::Terminal(7),
        nullable: false,
        first: 128,
        goes_on: 0,
        opened: 0,
        rank: 0,
        height: 0,
    },
    Entry {
        form: Form::Sequence(24, 25),
        nullable: false,
        first: 256,
        goes_on: 2568,
        opened: 0,
        rank: 1,
        height: 3,
    },
    Entry {
        form: Form::Terminal(8),
        nullable: false,
        first: 256,
        goes_on: 0,
        opened: 0,
        rank: 0,
        height: 0,
    },
    Entry {
        form: Form::Sequence(5, 6),
        nullable: false,
        first: 8,
        goes_on: 2568,
        opened: 0,
        rank: 2,
        height: 2,
    },
    Entry {
        form: Form::Sequence(15, 27),
        nullable: false,
        first: 16,
        goes_on: 576,
        opened: 0,
        rank: 1,
        height: 5,
    },
    Entry {
        form: Form::Sequence(9, 28),
        nullable: false,
        first: 39,
        goes_on: 576,
        opened: 0,
        rank: 5,
        height: 4,
    },
    Entry {
        form: Form::Sequence(18, 7),
        nullable: false,
        first: 32,
        goes_on: 576,
        opened: 0,
        rank: 1,
        height: 3,
    },
    Entry {
        form: Form::Terminal(3),
        nullable: false,
        first: 8,
        goes_on: 0,
        opened: 0,
        rank: 0,
        height: 0,
    },
    Entry {
        form: Form::Repeat(29),
        nullable: true,
        first: 8,
        goes_on: 8,
        opened: 0,
        rank: 1,
        height: 0,
    },
    Entry {
        form: Form::Choice(32, 33),
        nullable: false,
        first: 2560,
        goes_on: 0,
        opened: 0,
        rank: 1,
        height: 1,
    },
    Entry {
        form: Form::Terminal(9),
        nullable: false,
        first: 512,
        goes_on: 0,
        opened: 0,
        rank: 0,
        height: 0,
    },
    Entry {
        form: Form::Terminal(11),
        nullable: false,
        first: 2048,
        goes_on: 0,
        opened: 0,
        rank: 0,
        height: 0,
    },
    Entry {
        form: Form::Empty,
        nullable: true,
        first: 0,
        goes_on: 0,
        opened: 0,
        rank: 0,
        height: 0,
    },
    Entry {
        form: Form::Sequence(11, 36),
        nullable: false,
        first: 7,
        goes_on: 1031,
        opened: 0,
        rank: 3,
        height: 2,
    },
    Entry {
        form: Form::Repeat(10),
        nullable: true,
        first: 1031,
        goes_on: 1031,
        opened: 0,
        rank: 4,
        height: 0,
    },
    Entry {
        form: Form::Choice(38, 34),
        nullable: true,
        first: 1024,
        goes_on: 1024,
        opened: 0,
        rank: 1,
        height: 1,
    },
    Entry {
        form: Form::Terminal(10),
        nullable: false,
        first: 1024,
        goes_on: 0,
        opened: 0,
        rank: 0,
        height: 0,
    },
    Entry {
        form: Form::Terminal(2),
        nullable: false,
        first: 4,
        goes_on: 0,
        opened: 0,
        rank: 0,
        height: 0,
    },
    Entry {
        form: Form::Terminal(1),
        nullable: false,
        first: 2,
        goes_on: 0,
        opened: 0,
        rank: 0,
        height: 0,
    },
];
