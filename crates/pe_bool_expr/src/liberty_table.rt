//! The table of the grammar in `LibertyGrammar.antt`: written by `tools/grammar.py`.

use pe_grammar::{Entry, Form};

// The terminals.
pub const PLUS: u16 = 0;

pub const BAR: u16 = 1;

pub const STAR: u16 = 2;

pub const AND: u16 = 3;

pub const CARET: u16 = 4;

pub const BANG: u16 = 5;

pub const PRIME: u16 = 6;

pub const NAME: u16 = 7;

pub const ZERO: u16 = 8;

pub const ONE: u16 = 9;

pub const OPEN: u16 = 10;

pub const CLOSE: u16 = 11;

// The places.
pub const AT_SUM: u16 = 0;

pub const AT_SUM_PART_2: u16 = 6;

pub const AT_SUM_PART_2_EACH: u16 = 7;

pub const AT_SUM_PART_2_EACH_PART_1: u16 = 8;

pub const AT_TOKEN_PLUS: u16 = 9;

pub const AT_TOKEN_BAR: u16 = 10;

pub const AT_PRODUCT: u16 = 1;

pub const AT_PRODUCT_PART_2: u16 = 11;

pub const AT_PRODUCT_PART_2_EACH: u16 = 12;

pub const AT_PRODUCT_PART_2_EACH_PART_1: u16 = 13;

pub const AT_PRODUCT_PART_2_EACH_PART_1_PART_1: u16 = 14;

pub const AT_TOKEN_STAR: u16 = 15;

pub const AT_TOKEN_AND: u16 = 16;

pub const AT_DIFFERENCE: u16 = 2;

pub const AT_DIFFERENCE_PART_2: u16 = 18;

pub const AT_DIFFERENCE_PART_2_EACH: u16 = 19;

pub const AT_TOKEN_CARET: u16 = 20;

pub const AT_MARKED: u16 = 3;

pub const AT_MARKED_PART_1: u16 = 21;

pub const AT_TOKEN_BANG: u16 = 22;

pub const AT_PRIMED: u16 = 4;

pub const AT_PRIMED_PART_2: u16 = 23;

pub const AT_TOKEN_PRIME: u16 = 24;

pub const AT_PRIMARY: u16 = 5;

pub const AT_TOKEN_NAME: u16 = 25;

pub const AT_PRIMARY_2: u16 = 26;

pub const AT_TOKEN_ZERO: u16 = 27;

pub const AT_PRIMARY_3: u16 = 28;

pub const AT_TOKEN_ONE: u16 = 29;

pub const AT_PRIMARY_PART_4: u16 = 30;

pub const AT_TOKEN_OPEN: u16 = 31;

pub const AT_PRIMARY_PART_4_2: u16 = 32;

pub const AT_TOKEN_CLOSE: u16 = 33;

pub static LIBERTY: [Entry; 34] = [
    Entry {
        form: Form::Sequence(1, 6),
        nullable: false,
        first: 1952,
        goes_on: 2047,
        opened: 0,
        rank: 9,
        height: 6,
    },
    Entry {
        form: Form::Sequence(2, 11),
        nullable: false,
        first: 1952,
        goes_on: 2044,
        opened: 0,
        rank: 8,
        height: 5,
    },
    Entry {
        form: Form::Sequence(3, 18),
        nullable: false,
        first: 1952,
        goes_on: 80,
        opened: 0,
        rank: 7,
        height: 4,
    },
    Entry {
        form: Form::Sequence(21, 4),
        nullable: false,
        first: 1952,
        goes_on: 64,
        opened: 0,
        rank: 6,
        height: 3,
    },
    Entry {
        form: Form::Sequence(5, 23),
        nullable: false,
        first: 1920,
        goes_on: 64,
        opened: 0,
        rank: 5,
        height: 2,
    },
    Entry {
        form: Form::Choice(25, 26),
        nullable: false,
        first: 1920,
        goes_on: 0,
        opened: 0,
        rank: 4,
        height: 1,
    },
    Entry {
        form: Form::Repeat(7),
        nullable: true,
        first: 3,
        goes_on: 2047,
        opened: 0,
        rank: 3,
        height: 0,
    },
    Entry {
        form: Form::Sequence(8, 1),
        nullable: false,
        first: 3,
        goes_on: 2044,
        opened: 0,
        rank: 2,
        height: 6,
    },
    Entry {
        form: Form::Choice(9, 10),
        nullable: false,
        first: 3,
        goes_on: 0,
        opened: 0,
        rank: 1,
        height: 1,
    },
    Entry {
        form: Form::Terminal(0),
        nullable: false,
        first: 1,
        goes_on: 0,
        opened: 0,
        rank: 0,
        height: 0,
    },
    Entry {
        form: Form::Terminal(1),
        nullable: false,
        first: 2,
        goes_on: 0,
        opened: 0,
        rank: 0,
        height: 0,
    },
    Entry {
        form: Form::Repeat(12),
        nullable: true,
        first: 1964,
        goes_on: 2044,
        opened: 0,
        rank: 9,
        height: 0,
    },
    Entry {
        form: Form::Sequence(13, 2),
        nullable: false,
        first: 1964,
        goes_on: 80,
        opened: 0,
        rank: 8,
        height: 5,
    },
    Entry {
        form: Form::Choice(14, 17),
        nullable: true,
        first: 12,
        goes_on: 12,
        opened: 0,
        rank: 2,
        height: 1,
    },
    Entry {
        form: Form::Choice(15, 16),
        nullable: false,
        first: 12,
        goes_on: 0,
        opened: 0,
        rank: 1,
        height: 1,
    },
    Entry {
        form: Form::Terminal(2),
        nullable: false,
        first: 4,
        goes_on: 0,
        opened: 0,
        rank: 0,
        height: 0,
    },
    Entry {
        form: Form::Terminal(3),
        nullable: false,
        first: 8,
        goes_on: 0,
        opened: 0,
        rank: 0,
        height: 0,
    },
    Entry {
        form: Form::Empty,
        nullable: true,
        first: 0,
        goes_on: 0,
        opened: 0,
        rank: 0,
        height: 0,
    },
    Entry {
        form: Form::Repeat(19),
        nullable: true,
        first: 16,
        goes_on: 80,
        opened: 0,
        rank: 2,
        height: 0,
    },
    Entry {
        form: Form::Sequence(20, 3),
        nullable: false,
        first: 16,
        goes_on: 64,
        opened: 0,
        rank: 1,
        height: 4,
    },
    Entry {
        form: Form::Terminal(4),
        nullable: false,
        first: 16,
        goes_on: 0,
        opened: 0,
        rank: 0,
        height: 0,
    },
    Entry {
        form: Form::Repeat(22),
        nullable: true,
        first: 32,
        goes_on: 32,
        opened: 0,
        rank: 1,
        height: 0,
    },
    Entry {
        form: Form::Terminal(5),
        nullable: false,
        first: 32,
        goes_on: 0,
        opened: 0,
        rank: 0,
        height: 0,
    },
    Entry {
        form: Form::Repeat(24),
        nullable: true,
        first: 64,
        goes_on: 64,
        opened: 0,
        rank: 1,
        height: 0,
    },
    Entry {
        form: Form::Terminal(6),
        nullable: false,
        first: 64,
        goes_on: 0,
        opened: 0,
        rank: 0,
        height: 0,
    },
    Entry {
        form: Form::Terminal(7),
        nullable: false,
        first: 128,
        goes_on: 0,
        opened: 0,
        rank: 0,
        height: 0,
    },
    Entry {
        form: Form::Choice(27, 28),
        nullable: false,
        first: 1792,
        goes_on: 0,
        opened: 0,
        rank: 3,
        height: 1,
    },
    Entry {
        form: Form::Terminal(8),
        nullable: false,
        first: 256,
        goes_on: 0,
        opened: 0,
        rank: 0,
        height: 0,
    },
    Entry {
        form: Form::Choice(29, 30),
        nullable: false,
        first: 1536,
        goes_on: 0,
        opened: 0,
        rank: 2,
        height: 1,
    },
    Entry {
        form: Form::Terminal(9),
        nullable: false,
        first: 512,
        goes_on: 0,
        opened: 0,
        rank: 0,
        height: 0,
    },
    Entry {
        form: Form::Sequence(31, 32),
        nullable: false,
        first: 1024,
        goes_on: 0,
        opened: 0,
        rank: 1,
        height: 8,
    },
    Entry {
        form: Form::Terminal(10),
        nullable: false,
        first: 1024,
        goes_on: 0,
        opened: 0,
        rank: 0,
        height: 0,
    },
    Entry {
        form: Form::Sequence(0, 33),
        nullable: false,
        first: 1952,
        goes_on: 0,
        opened: 0,
        rank: 10,
        height: 7,
    },
    Entry {
        form: Form::Terminal(11),
        nullable: false,
        first: 2048,
        goes_on: 0,
        opened: 0,
        rank: 0,
        height: 0,
    },
];
