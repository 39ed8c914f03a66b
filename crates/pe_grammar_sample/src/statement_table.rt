//! The table of the grammar in `Statement.antt`: written by `tools/grammar.py`.

use pe_grammar::{Bounds, Entry, Form};

// The terminals.
pub const BEGIN: u16 = 0;

pub const END: u16 = 1;

pub const IF: u16 = 2;

pub const OPEN: u16 = 3;

pub const CLOSE: u16 = 4;

pub const ELSE: u16 = 5;

pub const NAME: u16 = 6;

pub const EQUALS: u16 = 7;

pub const COMMA: u16 = 8;

pub const SEMI: u16 = 9;

pub const DECLARE: u16 = 10;

pub const SIZE: u16 = 11;

pub const SIGNED: u16 = 12;

pub const NOTE: u16 = 13;

// The places.
pub const AT_STATEMENT: u16 = 0;

pub const AT_STATEMENT_2: u16 = 9;

pub const AT_STATEMENT_3: u16 = 10;

pub const AT_STATEMENT_4: u16 = 11;

pub const AT_TOKEN_SEMI: u16 = 12;

pub const AT_BLOCK: u16 = 1;

pub const AT_TOKEN_BEGIN: u16 = 13;

pub const AT_BLOCK_2: u16 = 14;

pub const AT_BLOCK_PART_2: u16 = 15;

pub const AT_TOKEN_END: u16 = 16;

pub const AT_TEST: u16 = 2;

pub const AT_TOKEN_IF: u16 = 17;

pub const AT_TEST_2: u16 = 18;

pub const AT_TOKEN_OPEN: u16 = 19;

pub const AT_TEST_3: u16 = 20;

pub const AT_TOKEN_NAME: u16 = 21;

pub const AT_TEST_4: u16 = 22;

pub const AT_TOKEN_CLOSE: u16 = 23;

pub const AT_TEST_5: u16 = 24;

pub const AT_OTHERWISE: u16 = 3;

pub const AT_ASSIGNMENT: u16 = 4;

pub const AT_ASSIGNMENT_2: u16 = 25;

pub const AT_TOKEN_EQUALS: u16 = 26;

pub const AT_ASSIGNMENT_3: u16 = 27;

pub const AT_NAMES: u16 = 5;

pub const AT_NAMES_PART_2: u16 = 28;

pub const AT_NAMES_PART_2_EACH: u16 = 29;

pub const AT_TOKEN_COMMA: u16 = 30;

pub const AT_DECLARATION: u16 = 6;

pub const AT_TOKEN_DECLARE: u16 = 31;

pub const AT_DECLARATION_2: u16 = 32;

pub const AT_DECLARATION_3: u16 = 33;

pub const AT_OPTIONS: u16 = 7;

pub const AT_OPTIONS_MANY: u16 = 34;

pub const AT_OPTION: u16 = 8;

pub const AT_OPTION_PART_1: u16 = 35;

pub const AT_TOKEN_SIZE: u16 = 36;

pub const AT_OPTION_2: u16 = 37;

pub const AT_TOKEN_SIGNED: u16 = 38;

pub const AT_OPTION_PART_3: u16 = 39;

pub const AT_TOKEN_NOTE: u16 = 40;

pub static STATEMENT: [Entry; 41] = [
    Entry {
        form: Form::Choice(1, 9),
        nullable: false,
        first: 1605,
        goes_on: 0,
        opened: 32,
        rank: 5,
        height: 3,
    },
    Entry {
        form: Form::Sequence(13, 14),
        nullable: false,
        first: 1,
        goes_on: 0,
        opened: 0,
        rank: 1,
        height: 2,
    },
    Entry {
        form: Form::Sequence(17, 18),
        nullable: false,
        first: 4,
        goes_on: 0,
        opened: 32,
        rank: 1,
        height: 8,
    },
    Entry {
        form: Form::Clause(32, 0),
        nullable: true,
        first: 32,
        goes_on: 0,
        opened: 32,
        rank: 0,
        height: 0,
    },
    Entry {
        form: Form::Sequence(21, 25),
        nullable: false,
        first: 64,
        goes_on: 0,
        opened: 0,
        rank: 1,
        height: 4,
    },
    Entry {
        form: Form::Sequence(21, 28),
        nullable: false,
        first: 64,
        goes_on: 256,
        opened: 0,
        rank: 1,
        height: 1,
    },
    Entry {
        form: Form::Sequence(31, 32),
        nullable: false,
        first: 1024,
        goes_on: 0,
        opened: 0,
        rank: 1,
        height: 5,
    },
    Entry {
        form: Form::Once(
            34,
            Bounds {
                once: 6144,
                needed: 2048,
            },
        ),
        nullable: false,
        first: 14336,
        goes_on: 14336,
        opened: 0,
        rank: 5,
        height: 2,
    },
    Entry {
        form: Form::Choice(35, 37),
        nullable: false,
        first: 14336,
        goes_on: 0,
        opened: 0,
        rank: 3,
        height: 2,
    },
    Entry {
        form: Form::Choice(2, 10),
        nullable: false,
        first: 1604,
        goes_on: 0,
        opened: 32,
        rank: 4,
        height: 3,
    },
    Entry {
        form: Form::Choice(4, 11),
        nullable: false,
        first: 1600,
        goes_on: 0,
        opened: 0,
        rank: 3,
        height: 2,
    },
    Entry {
        form: Form::Choice(6, 12),
        nullable: false,
        first: 1536,
        goes_on: 0,
        opened: 0,
        rank: 2,
        height: 1,
    },
    Entry {
        form: Form::Terminal(9),
        nullable: false,
        first: 512,
        goes_on: 0,
        opened: 0,
        rank: 0,
        height: 0,
    },
    Entry {
        form: Form::Terminal(0),
        nullable: false,
        first: 1,
        goes_on: 0,
        opened: 0,
        rank: 0,
        height: 0,
    },
    Entry {
        form: Form::Sequence(15, 16),
        nullable: false,
        first: 1607,
        goes_on: 0,
        opened: 0,
        rank: 7,
        height: 1,
    },
    Entry {
        form: Form::Repeat(0),
        nullable: true,
        first: 1605,
        goes_on: 1605,
        opened: 32,
        rank: 6,
        height: 0,
    },
    Entry {
        form: Form::Terminal(1),
        nullable: false,
        first: 2,
        goes_on: 0,
        opened: 0,
        rank: 0,
        height: 0,
    },
    Entry {
        form: Form::Terminal(2),
        nullable: false,
        first: 4,
        goes_on: 0,
        opened: 0,
        rank: 0,
        height: 0,
    },
    Entry {
        form: Form::Sequence(19, 20),
        nullable: false,
        first: 8,
        goes_on: 0,
        opened: 32,
        rank: 1,
        height: 7,
    },
    Entry {
        form: Form::Terminal(3),
        nullable: false,
        first: 8,
        goes_on: 0,
        opened: 0,
        rank: 0,
        height: 0,
    },
    Entry {
        form: Form::Sequence(21, 22),
        nullable: false,
        first: 64,
        goes_on: 0,
        opened: 32,
        rank: 1,
        height: 6,
    },
    Entry {
        form: Form::Terminal(6),
        nullable: false,
        first: 64,
        goes_on: 0,
        opened: 0,
        rank: 0,
        height: 0,
    },
    Entry {
        form: Form::Sequence(23, 24),
        nullable: false,
        first: 16,
        goes_on: 0,
        opened: 32,
        rank: 1,
        height: 5,
    },
    Entry {
        form: Form::Terminal(4),
        nullable: false,
        first: 16,
        goes_on: 0,
        opened: 0,
        rank: 0,
        height: 0,
    },
    Entry {
        form: Form::Sequence(0, 3),
        nullable: false,
        first: 1605,
        goes_on: 0,
        opened: 32,
        rank: 6,
        height: 4,
    },
    Entry {
        form: Form::Sequence(26, 27),
        nullable: false,
        first: 128,
        goes_on: 0,
        opened: 0,
        rank: 1,
        height: 3,
    },
    Entry {
        form: Form::Terminal(7),
        nullable: false,
        first: 128,
        goes_on: 0,
        opened: 0,
        rank: 0,
        height: 0,
    },
    Entry {
        form: Form::Sequence(5, 12),
        nullable: false,
        first: 64,
        goes_on: 0,
        opened: 0,
        rank: 2,
        height: 2,
    },
    Entry {
        form: Form::Repeat(29),
        nullable: true,
        first: 256,
        goes_on: 256,
        opened: 0,
        rank: 2,
        height: 0,
    },
    Entry {
        form: Form::Sequence(30, 21),
        nullable: false,
        first: 256,
        goes_on: 0,
        opened: 0,
        rank: 1,
        height: 1,
    },
    Entry {
        form: Form::Terminal(8),
        nullable: false,
        first: 256,
        goes_on: 0,
        opened: 0,
        rank: 0,
        height: 0,
    },
    Entry {
        form: Form::Terminal(10),
        nullable: false,
        first: 1024,
        goes_on: 0,
        opened: 0,
        rank: 0,
        height: 0,
    },
    Entry {
        form: Form::Sequence(21, 33),
        nullable: false,
        first: 64,
        goes_on: 0,
        opened: 0,
        rank: 1,
        height: 4,
    },
    Entry {
        form: Form::Sequence(7, 12),
        nullable: false,
        first: 14336,
        goes_on: 0,
        opened: 0,
        rank: 6,
        height: 3,
    },
    Entry {
        form: Form::Repeat(8),
        nullable: true,
        first: 14336,
        goes_on: 14336,
        opened: 0,
        rank: 4,
        height: 0,
    },
    Entry {
        form: Form::Sequence(36, 21),
        nullable: false,
        first: 2048,
        goes_on: 0,
        opened: 0,
        rank: 1,
        height: 1,
    },
    Entry {
        form: Form::Terminal(11),
        nullable: false,
        first: 2048,
        goes_on: 0,
        opened: 0,
        rank: 0,
        height: 0,
    },
    Entry {
        form: Form::Choice(38, 39),
        nullable: false,
        first: 12288,
        goes_on: 0,
        opened: 0,
        rank: 2,
        height: 1,
    },
    Entry {
        form: Form::Terminal(12),
        nullable: false,
        first: 4096,
        goes_on: 0,
        opened: 0,
        rank: 0,
        height: 0,
    },
    Entry {
        form: Form::Sequence(40, 21),
        nullable: false,
        first: 8192,
        goes_on: 0,
        opened: 0,
        rank: 1,
        height: 1,
    },
    Entry {
        form: Form::Terminal(13),
        nullable: false,
        first: 8192,
        goes_on: 0,
        opened: 0,
        rank: 0,
        height: 0,
    },
];
