//! The table of the grammar in `MapGrammar.antt`: written by `tools/grammar.py`.

use pe_grammar::{Bounds, Entry, Form};

// The terminals.
pub const TOP: u16 = 0;

pub const CLOCK: u16 = 1;

pub const SUPPLY: u16 = 2;

pub const PORT: u16 = 3;

pub const TIE: u16 = 4;

pub const REG: u16 = 5;

pub const DROP: u16 = 6;

pub const START: u16 = 7;

pub const STEP: u16 = 8;

pub const INV: u16 = 9;

pub const ZERO: u16 = 10;

pub const ONE: u16 = 11;

pub const WORD: u16 = 12;

pub const LINE: u16 = 13;

// The places.
pub const AT_MAP: u16 = 0;

pub const AT_MAP_MANY: u16 = 11;

pub const AT_LINE: u16 = 1;

pub const AT_LINE_2: u16 = 12;

pub const AT_LINE_3: u16 = 13;

pub const AT_LINE_4: u16 = 14;

pub const AT_TOKEN_LINE: u16 = 15;

pub const AT_DESIGN: u16 = 2;

pub const AT_DESIGN_PART_1: u16 = 16;

pub const AT_TOKEN_TOP: u16 = 17;

pub const AT_DESIGN_PART_2: u16 = 18;

pub const AT_TOKEN_CLOCK: u16 = 19;

pub const AT_PORT: u16 = 3;

pub const AT_PORT_PART_1: u16 = 20;

pub const AT_TOKEN_SUPPLY: u16 = 21;

pub const AT_PORT_2: u16 = 22;

pub const AT_PORT_PART_2: u16 = 23;

pub const AT_TOKEN_PORT: u16 = 24;

pub const AT_PORT_PART_3: u16 = 25;

pub const AT_TOKEN_TIE: u16 = 26;

pub const AT_PORT_PART_3_2: u16 = 27;

pub const AT_PORT_PART_3_3: u16 = 28;

pub const AT_REGISTER: u16 = 4;

pub const AT_REGISTER_PART_1: u16 = 29;

pub const AT_TOKEN_REG: u16 = 30;

pub const AT_REGISTER_PART_1_2: u16 = 31;

pub const AT_REGISTER_PART_1_3: u16 = 32;

pub const AT_REGISTER_PART_1_4: u16 = 33;

pub const AT_REGISTER_PART_2: u16 = 34;

pub const AT_TOKEN_DROP: u16 = 35;

pub const AT_ROW: u16 = 5;

pub const AT_ROW_PART_1: u16 = 36;

pub const AT_TOKEN_START: u16 = 37;

pub const AT_ROW_PART_2: u16 = 38;

pub const AT_TOKEN_STEP: u16 = 39;

pub const AT_ONE: u16 = 6;

pub const AT_TWO: u16 = 7;

pub const AT_TWO_2: u16 = 40;

pub const AT_BIT: u16 = 8;

pub const AT_TOKEN_ZERO: u16 = 41;

pub const AT_TOKEN_ONE: u16 = 42;

pub const AT_INVERTED: u16 = 9;

pub const AT_TOKEN_INV: u16 = 43;

pub const AT_NAME: u16 = 10;

pub const AT_TOKEN_WORD: u16 = 45;

pub const AT_NAME_2: u16 = 46;

pub const AT_NAME_3: u16 = 47;

pub static MAP: [Entry; 48] = [
    Entry {
        form: Form::Once(11, Bounds { once: 3, needed: 0 }),
        nullable: true,
        first: 8703,
        goes_on: 8703,
        opened: 0,
        rank: 8,
        height: 0,
    },
    Entry {
        form: Form::Choice(2, 12),
        nullable: false,
        first: 8703,
        goes_on: 0,
        opened: 0,
        rank: 6,
        height: 4,
    },
    Entry {
        form: Form::Choice(16, 18),
        nullable: false,
        first: 3,
        goes_on: 0,
        opened: 0,
        rank: 2,
        height: 4,
    },
    Entry {
        form: Form::Choice(20, 22),
        nullable: false,
        first: 28,
        goes_on: 0,
        opened: 0,
        rank: 3,
        height: 5,
    },
    Entry {
        form: Form::Choice(29, 34),
        nullable: false,
        first: 96,
        goes_on: 0,
        opened: 0,
        rank: 2,
        height: 4,
    },
    Entry {
        form: Form::Choice(36, 38),
        nullable: false,
        first: 384,
        goes_on: 0,
        opened: 0,
        rank: 2,
        height: 4,
    },
    Entry {
        form: Form::Sequence(10, 15),
        nullable: false,
        first: 7680,
        goes_on: 0,
        opened: 0,
        rank: 4,
        height: 2,
    },
    Entry {
        form: Form::Sequence(10, 40),
        nullable: false,
        first: 7680,
        goes_on: 0,
        opened: 0,
        rank: 4,
        height: 3,
    },
    Entry {
        form: Form::Choice(41, 42),
        nullable: false,
        first: 3072,
        goes_on: 0,
        opened: 0,
        rank: 1,
        height: 1,
    },
    Entry {
        form: Form::Choice(43, 44),
        nullable: true,
        first: 512,
        goes_on: 512,
        opened: 0,
        rank: 1,
        height: 1,
    },
    Entry {
        form: Form::Choice(45, 46),
        nullable: false,
        first: 7680,
        goes_on: 0,
        opened: 0,
        rank: 3,
        height: 1,
    },
    Entry {
        form: Form::Repeat(1),
        nullable: true,
        first: 8703,
        goes_on: 8703,
        opened: 0,
        rank: 7,
        height: 0,
    },
    Entry {
        form: Form::Choice(3, 13),
        nullable: false,
        first: 8700,
        goes_on: 0,
        opened: 0,
        rank: 5,
        height: 3,
    },
    Entry {
        form: Form::Choice(4, 14),
        nullable: false,
        first: 8672,
        goes_on: 0,
        opened: 0,
        rank: 4,
        height: 2,
    },
    Entry {
        form: Form::Choice(5, 15),
        nullable: false,
        first: 8576,
        goes_on: 0,
        opened: 0,
        rank: 3,
        height: 1,
    },
    Entry {
        form: Form::Terminal(13),
        nullable: false,
        first: 8192,
        goes_on: 0,
        opened: 0,
        rank: 0,
        height: 0,
    },
    Entry {
        form: Form::Sequence(17, 7),
        nullable: false,
        first: 1,
        goes_on: 0,
        opened: 0,
        rank: 1,
        height: 4,
    },
    Entry {
        form: Form::Terminal(0),
        nullable: false,
        first: 1,
        goes_on: 0,
        opened: 0,
        rank: 0,
        height: 0,
    },
    Entry {
        form: Form::Sequence(19, 6),
        nullable: false,
        first: 2,
        goes_on: 0,
        opened: 0,
        rank: 1,
        height: 3,
    },
    Entry {
        form: Form::Terminal(1),
        nullable: false,
        first: 2,
        goes_on: 0,
        opened: 0,
        rank: 0,
        height: 0,
    },
    Entry {
        form: Form::Sequence(21, 7),
        nullable: false,
        first: 4,
        goes_on: 0,
        opened: 0,
        rank: 1,
        height: 4,
    },
    Entry {
        form: Form::Terminal(2),
        nullable: false,
        first: 4,
        goes_on: 0,
        opened: 0,
        rank: 0,
        height: 0,
    },
    Entry {
        form: Form::Choice(23, 25),
        nullable: false,
        first: 24,
        goes_on: 0,
        opened: 0,
        rank: 2,
        height: 5,
    },
    Entry {
        form: Form::Sequence(24, 7),
        nullable: false,
        first: 8,
        goes_on: 0,
        opened: 0,
        rank: 1,
        height: 4,
    },
    Entry {
        form: Form::Terminal(3),
        nullable: false,
        first: 8,
        goes_on: 0,
        opened: 0,
        rank: 0,
        height: 0,
    },
    Entry {
        form: Form::Sequence(26, 27),
        nullable: false,
        first: 16,
        goes_on: 0,
        opened: 0,
        rank: 1,
        height: 4,
    },
    Entry {
        form: Form::Terminal(4),
        nullable: false,
        first: 16,
        goes_on: 0,
        opened: 0,
        rank: 0,
        height: 0,
    },
    Entry {
        form: Form::Sequence(10, 28),
        nullable: false,
        first: 7680,
        goes_on: 0,
        opened: 0,
        rank: 4,
        height: 3,
    },
    Entry {
        form: Form::Sequence(8, 15),
        nullable: false,
        first: 3072,
        goes_on: 0,
        opened: 0,
        rank: 2,
        height: 2,
    },
    Entry {
        form: Form::Sequence(30, 31),
        nullable: false,
        first: 32,
        goes_on: 0,
        opened: 0,
        rank: 1,
        height: 5,
    },
    Entry {
        form: Form::Terminal(5),
        nullable: false,
        first: 32,
        goes_on: 0,
        opened: 0,
        rank: 0,
        height: 0,
    },
    Entry {
        form: Form::Sequence(10, 32),
        nullable: false,
        first: 7680,
        goes_on: 0,
        opened: 0,
        rank: 4,
        height: 4,
    },
    Entry {
        form: Form::Sequence(10, 33),
        nullable: false,
        first: 7680,
        goes_on: 0,
        opened: 0,
        rank: 4,
        height: 3,
    },
    Entry {
        form: Form::Sequence(9, 15),
        nullable: false,
        first: 8704,
        goes_on: 0,
        opened: 0,
        rank: 2,
        height: 2,
    },
    Entry {
        form: Form::Sequence(35, 6),
        nullable: false,
        first: 64,
        goes_on: 0,
        opened: 0,
        rank: 1,
        height: 3,
    },
    Entry {
        form: Form::Terminal(6),
        nullable: false,
        first: 64,
        goes_on: 0,
        opened: 0,
        rank: 0,
        height: 0,
    },
    Entry {
        form: Form::Sequence(37, 6),
        nullable: false,
        first: 128,
        goes_on: 0,
        opened: 0,
        rank: 1,
        height: 3,
    },
    Entry {
        form: Form::Terminal(7),
        nullable: false,
        first: 128,
        goes_on: 0,
        opened: 0,
        rank: 0,
        height: 0,
    },
    Entry {
        form: Form::Sequence(39, 7),
        nullable: false,
        first: 256,
        goes_on: 0,
        opened: 0,
        rank: 1,
        height: 4,
    },
    Entry {
        form: Form::Terminal(8),
        nullable: false,
        first: 256,
        goes_on: 0,
        opened: 0,
        rank: 0,
        height: 0,
    },
    Entry {
        form: Form::Sequence(10, 15),
        nullable: false,
        first: 7680,
        goes_on: 0,
        opened: 0,
        rank: 4,
        height: 2,
    },
    Entry {
        form: Form::Terminal(10),
        nullable: false,
        first: 1024,
        goes_on: 0,
        opened: 0,
        rank: 0,
        height: 0,
    },
    Entry {
        form: Form::Terminal(11),
        nullable: false,
        first: 2048,
        goes_on: 0,
        opened: 0,
        rank: 0,
        height: 0,
    },
    Entry {
        form: Form::Terminal(9),
        nullable: false,
        first: 512,
        goes_on: 0,
        opened: 0,
        rank: 0,
        height: 0,
    },
    Entry {
        form: Form::Empty,
        nullable: true,
        first: 0,
        goes_on: 0,
        opened: 0,
        rank: 0,
        height: 0,
    },
    Entry {
        form: Form::Terminal(12),
        nullable: false,
        first: 4096,
        goes_on: 0,
        opened: 0,
        rank: 0,
        height: 0,
    },
    Entry {
        form: Form::Choice(43, 47),
        nullable: false,
        first: 3584,
        goes_on: 0,
        opened: 0,
        rank: 2,
        height: 1,
    },
    Entry {
        form: Form::Choice(41, 42),
        nullable: false,
        first: 3072,
        goes_on: 0,
        opened: 0,
        rank: 1,
        height: 1,
    },
];
