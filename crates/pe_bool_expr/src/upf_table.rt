//! The table of the grammar in `UpfGrammar.antt`: written by `tools/grammar.py`.

use pe_grammar::{Entry, Form};

// The terminals.
pub const BANG: u16 = 0;

pub const TILDE: u16 = 1;

pub const AND: u16 = 2;

pub const CARET: u16 = 3;

pub const BAR: u16 = 4;

pub const AND_AND: u16 = 5;

pub const BAR_BAR: u16 = 6;

pub const NAME: u16 = 7;

pub const ZERO: u16 = 8;

pub const ONE: u16 = 9;

pub const OPEN: u16 = 10;

pub const CLOSE: u16 = 11;

// The places.
pub const AT_ANY: u16 = 0;

pub const AT_ANY_PART_2: u16 = 7;

pub const AT_ANY_PART_2_EACH: u16 = 8;

pub const AT_TOKEN_BAR_BAR: u16 = 9;

pub const AT_ALL: u16 = 1;

pub const AT_ALL_PART_2: u16 = 10;

pub const AT_ALL_PART_2_EACH: u16 = 11;

pub const AT_TOKEN_AND_AND: u16 = 12;

pub const AT_UNION: u16 = 2;

pub const AT_UNION_PART_2: u16 = 13;

pub const AT_UNION_PART_2_EACH: u16 = 14;

pub const AT_TOKEN_BAR: u16 = 15;

pub const AT_DIFFERENCE: u16 = 3;

pub const AT_DIFFERENCE_PART_2: u16 = 16;

pub const AT_DIFFERENCE_PART_2_EACH: u16 = 17;

pub const AT_TOKEN_CARET: u16 = 18;

pub const AT_PRODUCT: u16 = 4;

pub const AT_PRODUCT_PART_2: u16 = 19;

pub const AT_PRODUCT_PART_2_EACH: u16 = 20;

pub const AT_TOKEN_AND: u16 = 21;

pub const AT_MARKED: u16 = 5;

pub const AT_MARKED_PART_1: u16 = 22;

pub const AT_MARKED_PART_1_EACH: u16 = 23;

pub const AT_TOKEN_BANG: u16 = 24;

pub const AT_TOKEN_TILDE: u16 = 25;

pub const AT_PRIMARY: u16 = 6;

pub const AT_TOKEN_NAME: u16 = 26;

pub const AT_PRIMARY_2: u16 = 27;

pub const AT_TOKEN_ZERO: u16 = 28;

pub const AT_PRIMARY_3: u16 = 29;

pub const AT_TOKEN_ONE: u16 = 30;

pub const AT_PRIMARY_PART_4: u16 = 31;

pub const AT_TOKEN_OPEN: u16 = 32;

pub const AT_PRIMARY_PART_4_2: u16 = 33;

pub const AT_TOKEN_CLOSE: u16 = 34;

pub static UPF: [Entry; 35] = [
    Entry {
        form: Form::Sequence(1, 7),
        nullable: false,
        first: 1923,
        goes_on: 124,
        opened: 0,
        rank: 10,
        height: 7,
    },
    Entry {
        form: Form::Sequence(2, 10),
        nullable: false,
        first: 1923,
        goes_on: 60,
        opened: 0,
        rank: 9,
        height: 6,
    },
    Entry {
        form: Form::Sequence(3, 13),
        nullable: false,
        first: 1923,
        goes_on: 28,
        opened: 0,
        rank: 8,
        height: 5,
    },
    Entry {
        form: Form::Sequence(4, 16),
        nullable: false,
        first: 1923,
        goes_on: 12,
        opened: 0,
        rank: 7,
        height: 4,
    },
    Entry {
        form: Form::Sequence(5, 19),
        nullable: false,
        first: 1923,
        goes_on: 4,
        opened: 0,
        rank: 6,
        height: 3,
    },
    Entry {
        form: Form::Sequence(22, 6),
        nullable: false,
        first: 1923,
        goes_on: 0,
        opened: 0,
        rank: 5,
        height: 2,
    },
    Entry {
        form: Form::Choice(26, 27),
        nullable: false,
        first: 1920,
        goes_on: 0,
        opened: 0,
        rank: 4,
        height: 1,
    },
    Entry {
        form: Form::Repeat(8),
        nullable: true,
        first: 64,
        goes_on: 124,
        opened: 0,
        rank: 2,
        height: 0,
    },
    Entry {
        form: Form::Sequence(9, 1),
        nullable: false,
        first: 64,
        goes_on: 60,
        opened: 0,
        rank: 1,
        height: 7,
    },
    Entry {
        form: Form::Terminal(6),
        nullable: false,
        first: 64,
        goes_on: 0,
        opened: 0,
        rank: 0,
        height: 0,
    },
    Entry {
        form: Form::Repeat(11),
        nullable: true,
        first: 32,
        goes_on: 60,
        opened: 0,
        rank: 2,
        height: 0,
    },
    Entry {
        form: Form::Sequence(12, 2),
        nullable: false,
        first: 32,
        goes_on: 28,
        opened: 0,
        rank: 1,
        height: 6,
    },
    Entry {
        form: Form::Terminal(5),
        nullable: false,
        first: 32,
        goes_on: 0,
        opened: 0,
        rank: 0,
        height: 0,
    },
    Entry {
        form: Form::Repeat(14),
        nullable: true,
        first: 16,
        goes_on: 28,
        opened: 0,
        rank: 2,
        height: 0,
    },
    Entry {
        form: Form::Sequence(15, 3),
        nullable: false,
        first: 16,
        goes_on: 12,
        opened: 0,
        rank: 1,
        height: 5,
    },
    Entry {
        form: Form::Terminal(4),
        nullable: false,
        first: 16,
        goes_on: 0,
        opened: 0,
        rank: 0,
        height: 0,
    },
    Entry {
        form: Form::Repeat(17),
        nullable: true,
        first: 8,
        goes_on: 12,
        opened: 0,
        rank: 2,
        height: 0,
    },
    Entry {
        form: Form::Sequence(18, 4),
        nullable: false,
        first: 8,
        goes_on: 4,
        opened: 0,
        rank: 1,
        height: 4,
    },
    Entry {
        form: Form::Terminal(3),
        nullable: false,
        first: 8,
        goes_on: 0,
        opened: 0,
        rank: 0,
        height: 0,
    },
    Entry {
        form: Form::Repeat(20),
        nullable: true,
        first: 4,
        goes_on: 4,
        opened: 0,
        rank: 2,
        height: 0,
    },
    Entry {
        form: Form::Sequence(21, 5),
        nullable: false,
        first: 4,
        goes_on: 0,
        opened: 0,
        rank: 1,
        height: 3,
    },
    Entry {
        form: Form::Terminal(2),
        nullable: false,
        first: 4,
        goes_on: 0,
        opened: 0,
        rank: 0,
        height: 0,
    },
    Entry {
        form: Form::Repeat(23),
        nullable: true,
        first: 3,
        goes_on: 3,
        opened: 0,
        rank: 2,
        height: 0,
    },
    Entry {
        form: Form::Choice(24, 25),
        nullable: false,
        first: 3,
        goes_on: 0,
        opened: 0,
        rank: 1,
        height: 1,
    },
    Entry {
        form: Form::Terminal(0),
        nullable: false,
        first: 1,
        goes_on: 0,
        opened: 0,
        rank: 0,
        height: 0,
    },
    Entry {
        form: Form::Terminal(1),
        nullable: false,
        first: 2,
        goes_on: 0,
        opened: 0,
        rank: 0,
        height: 0,
    },
    Entry {
        form: Form::Terminal(7),
        nullable: false,
        first: 128,
        goes_on: 0,
        opened: 0,
        rank: 0,
        height: 0,
    },
    Entry {
        form: Form::Choice(28, 29),
        nullable: false,
        first: 1792,
        goes_on: 0,
        opened: 0,
        rank: 3,
        height: 1,
    },
    Entry {
        form: Form::Terminal(8),
        nullable: false,
        first: 256,
        goes_on: 0,
        opened: 0,
        rank: 0,
        height: 0,
    },
    Entry {
        form: Form::Choice(30, 31),
        nullable: false,
        first: 1536,
        goes_on: 0,
        opened: 0,
        rank: 2,
        height: 1,
    },
    Entry {
        form: Form::Terminal(9),
        nullable: false,
        first: 512,
        goes_on: 0,
        opened: 0,
        rank: 0,
        height: 0,
    },
    Entry {
        form: Form::Sequence(32, 33),
        nullable: false,
        first: 1024,
        goes_on: 0,
        opened: 0,
        rank: 1,
        height: 9,
    },
    Entry {
        form: Form::Terminal(10),
        nullable: false,
        first: 1024,
        goes_on: 0,
        opened: 0,
        rank: 0,
        height: 0,
    },
    Entry {
        form: Form::Sequence(0, 34),
        nullable: false,
        first: 1923,
        goes_on: 0,
        opened: 0,
        rank: 11,
        height: 8,
    },
    Entry {
        form: Form::Terminal(11),
        nullable: false,
        first: 2048,
        goes_on: 0,
        opened: 0,
        rank: 0,
        height: 0,
    },
];
