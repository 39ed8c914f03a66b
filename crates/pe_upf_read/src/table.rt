//! The table of the grammar in `UpfGrammar.antt`: written by `tools/grammar.py`.

use pe_grammar::{Bounds, Entry, Form};

// The terminals.
pub const UPF_VERSION: u16 = 0;

pub const SET_DESIGN_TOP: u16 = 1;

pub const CREATE_POWER_DOMAIN: u16 = 2;

pub const CREATE_SUPPLY_PORT: u16 = 3;

pub const CREATE_SUPPLY_NET: u16 = 4;

pub const CONNECT_SUPPLY_NET: u16 = 5;

pub const CREATE_SUPPLY_SET: u16 = 6;

pub const SET_DOMAIN_SUPPLY_NET: u16 = 7;

pub const CREATE_POWER_SWITCH: u16 = 8;

pub const ADD_PORT_STATE: u16 = 9;

pub const CREATE_PST: u16 = 10;

pub const ADD_PST_STATE: u16 = 11;

pub const SET_ISOLATION: u16 = 12;

pub const SET_RETENTION: u16 = 13;

pub const SET_LEVEL_SHIFTER: u16 = 14;

pub const MAP_RETENTION_CELL: u16 = 15;

pub const MAP_POWER_SWITCH: u16 = 16;

pub const ELEMENTS: u16 = 17;

pub const INCLUDE_SCOPE: u16 = 18;

pub const SUPPLY: u16 = 19;

pub const DIRECTION: u16 = 20;

pub const DOMAIN: u16 = 21;

pub const REUSE: u16 = 22;

pub const PORTS: u16 = 23;

pub const FUNCTION: u16 = 24;

pub const PRIMARY_POWER_NET: u16 = 25;

pub const PRIMARY_GROUND_NET: u16 = 26;

pub const OUTPUT_SUPPLY_PORT: u16 = 27;

pub const INPUT_SUPPLY_PORT: u16 = 28;

pub const CONTROL_PORT: u16 = 29;

pub const ON_STATE: u16 = 30;

pub const OFF_STATE: u16 = 31;

pub const STATE: u16 = 32;

pub const SUPPLIES: u16 = 33;

pub const PST: u16 = 34;

pub const APPLIES_TO: u16 = 35;

pub const CLAMP_VALUE: u16 = 36;

pub const ISOLATION_SIGNAL: u16 = 37;

pub const ISOLATION_SENSE: u16 = 38;

pub const ISOLATION_SUPPLY: u16 = 39;

pub const LOCATION: u16 = 40;

pub const NO_ISOLATION: u16 = 41;

pub const RETENTION_SUPPLY: u16 = 42;

pub const SAVE_SIGNAL: u16 = 43;

pub const RESTORE_SIGNAL: u16 = 44;

pub const IN: u16 = 45;

pub const OUT: u16 = 46;

pub const INPUTS: u16 = 47;

pub const OUTPUTS: u16 = 48;

pub const BOTH: u16 = 49;

pub const HIGH: u16 = 50;

pub const LOW: u16 = 51;

pub const POSEDGE: u16 = 52;

pub const NEGEDGE: u16 = 53;

pub const POWER: u16 = 54;

pub const GROUND: u16 = 55;

pub const PRIMARY: u16 = 56;

pub const WORD: u16 = 57;

pub const TEXT: u16 = 58;

pub const OPEN: u16 = 59;

pub const CLOSE: u16 = 60;

pub const END: u16 = 61;

pub const OTHER: u16 = 62;

// The places.
pub const AT_FILE: u16 = 0;

pub const AT_FILE_PART_1: u16 = 30;

pub const AT_TOKEN_END: u16 = 31;

pub const AT_FILE_PART_2: u16 = 32;

pub const AT_LINE: u16 = 1;

pub const AT_LINE_2: u16 = 33;

pub const AT_LINE_PART_3: u16 = 30;

pub const AT_COMMAND: u16 = 2;

pub const AT_COMMAND_PART_1: u16 = 34;

pub const AT_TOKEN_UPF_VERSION: u16 = 35;

pub const AT_COMMAND_2: u16 = 36;

pub const AT_COMMAND_PART_2: u16 = 37;

pub const AT_TOKEN_SET_DESIGN_TOP: u16 = 38;

pub const AT_COMMAND_3: u16 = 39;

pub const AT_COMMAND_PART_3: u16 = 40;

pub const AT_TOKEN_CREATE_POWER_DOMAIN: u16 = 41;

pub const AT_COMMAND_PART_3_2: u16 = 42;

pub const AT_COMMAND_4: u16 = 43;

pub const AT_COMMAND_PART_4: u16 = 44;

pub const AT_TOKEN_CREATE_SUPPLY_PORT: u16 = 45;

pub const AT_COMMAND_PART_4_2: u16 = 46;

pub const AT_COMMAND_5: u16 = 47;

pub const AT_COMMAND_PART_5: u16 = 48;

pub const AT_TOKEN_CREATE_SUPPLY_NET: u16 = 49;

pub const AT_COMMAND_PART_5_2: u16 = 50;

pub const AT_COMMAND_6: u16 = 51;

pub const AT_COMMAND_PART_6: u16 = 52;

pub const AT_TOKEN_CONNECT_SUPPLY_NET: u16 = 53;

pub const AT_COMMAND_PART_6_2: u16 = 54;

pub const AT_COMMAND_PART_6_3: u16 = 55;

pub const AT_TOKEN_PORTS: u16 = 56;

pub const AT_COMMAND_7: u16 = 57;

pub const AT_COMMAND_PART_7: u16 = 58;

pub const AT_TOKEN_CREATE_SUPPLY_SET: u16 = 59;

pub const AT_COMMAND_PART_7_2: u16 = 60;

pub const AT_COMMAND_8: u16 = 61;

pub const AT_COMMAND_PART_8: u16 = 62;

pub const AT_TOKEN_SET_DOMAIN_SUPPLY_NET: u16 = 63;

pub const AT_COMMAND_PART_8_2: u16 = 64;

pub const AT_COMMAND_9: u16 = 65;

pub const AT_COMMAND_PART_9: u16 = 66;

pub const AT_TOKEN_CREATE_POWER_SWITCH: u16 = 67;

pub const AT_COMMAND_PART_9_2: u16 = 68;

pub const AT_COMMAND_10: u16 = 69;

pub const AT_COMMAND_PART_10: u16 = 70;

pub const AT_TOKEN_ADD_PORT_STATE: u16 = 71;

pub const AT_COMMAND_PART_10_2: u16 = 72;

pub const AT_COMMAND_PART_10_PART_3: u16 = 73;

pub const AT_COMMAND_11: u16 = 74;

pub const AT_COMMAND_PART_11: u16 = 75;

pub const AT_TOKEN_CREATE_PST: u16 = 76;

pub const AT_COMMAND_PART_11_2: u16 = 77;

pub const AT_COMMAND_PART_11_3: u16 = 78;

pub const AT_TOKEN_SUPPLIES: u16 = 79;

pub const AT_COMMAND_12: u16 = 80;

pub const AT_COMMAND_PART_12: u16 = 81;

pub const AT_TOKEN_ADD_PST_STATE: u16 = 82;

pub const AT_COMMAND_PART_12_2: u16 = 83;

pub const AT_COMMAND_13: u16 = 84;

pub const AT_COMMAND_PART_13: u16 = 85;

pub const AT_TOKEN_SET_ISOLATION: u16 = 86;

pub const AT_COMMAND_PART_13_2: u16 = 87;

pub const AT_COMMAND_14: u16 = 88;

pub const AT_COMMAND_PART_14: u16 = 89;

pub const AT_TOKEN_SET_RETENTION: u16 = 90;

pub const AT_COMMAND_PART_14_2: u16 = 91;

pub const AT_COMMAND_15: u16 = 92;

pub const AT_COMMAND_PART_15: u16 = 93;

pub const AT_TOKEN_SET_LEVEL_SHIFTER: u16 = 94;

pub const AT_COMMAND_PART_15_PART_2: u16 = 95;

pub const AT_COMMAND_16: u16 = 96;

pub const AT_COMMAND_PART_16: u16 = 97;

pub const AT_TOKEN_MAP_RETENTION_CELL: u16 = 98;

pub const AT_COMMAND_PART_16_PART_2: u16 = 95;

pub const AT_COMMAND_PART_17: u16 = 99;

pub const AT_TOKEN_MAP_POWER_SWITCH: u16 = 100;

pub const AT_COMMAND_PART_17_PART_2: u16 = 95;

pub const AT_DOMAIN_OPTIONS: u16 = 3;

pub const AT_DOMAIN_OPTIONS_MANY: u16 = 101;

pub const AT_DOMAIN_OPTION: u16 = 4;

pub const AT_DOMAIN_OPTION_PART_1: u16 = 102;

pub const AT_TOKEN_ELEMENTS: u16 = 103;

pub const AT_DOMAIN_OPTION_2: u16 = 104;

pub const AT_TOKEN_INCLUDE_SCOPE: u16 = 105;

pub const AT_DOMAIN_OPTION_PART_3: u16 = 106;

pub const AT_TOKEN_SUPPLY: u16 = 107;

pub const AT_DOMAIN_OPTION_PART_3_2: u16 = 108;

pub const AT_TOKEN_OPEN: u16 = 109;

pub const AT_DOMAIN_OPTION_PART_3_3: u16 = 110;

pub const AT_TOKEN_PRIMARY: u16 = 111;

pub const AT_DOMAIN_OPTION_PART_3_4: u16 = 112;

pub const AT_TOKEN_CLOSE: u16 = 113;

pub const AT_PORT_OPTIONS: u16 = 5;

pub const AT_PORT_OPTIONS_MANY: u16 = 114;

pub const AT_PORT_OPTION: u16 = 6;

pub const AT_PORT_OPTION_PART_1: u16 = 115;

pub const AT_TOKEN_DIRECTION: u16 = 116;

pub const AT_PORT_OPTION_PART_1_PART_2: u16 = 117;

pub const AT_TOKEN_IN: u16 = 118;

pub const AT_TOKEN_OUT: u16 = 119;

pub const AT_PORT_OPTION_PART_2: u16 = 120;

pub const AT_TOKEN_DOMAIN: u16 = 121;

pub const AT_NET_OPTIONS: u16 = 7;

pub const AT_NET_OPTIONS_MANY: u16 = 122;

pub const AT_NET_OPTION: u16 = 8;

pub const AT_NET_OPTION_PART_1: u16 = 120;

pub const AT_TOKEN_REUSE: u16 = 123;

pub const AT_FUNCTIONS: u16 = 9;

pub const AT_FUNCTIONS_PART_1: u16 = 124;

pub const AT_TOKEN_FUNCTION: u16 = 125;

pub const AT_FUNCTIONS_PART_1_2: u16 = 126;

pub const AT_ROLE: u16 = 10;

pub const AT_ROLE_PART_1: u16 = 128;

pub const AT_TOKEN_POWER: u16 = 129;

pub const AT_ROLE_PART_1_2: u16 = 130;

pub const AT_ROLE_PART_1_3: u16 = 131;

pub const AT_ROLE_PART_1_PART_4: u16 = 132;

pub const AT_ROLE_PART_1_PART_4_PART_1: u16 = 133;

pub const AT_ROLE_PART_1_PART_4_PART_1_2: u16 = 134;

pub const AT_ROLE_PART_1_PART_4_PART_1_3: u16 = 135;

pub const AT_TOKEN_GROUND: u16 = 136;

pub const AT_ROLE_PART_1_PART_4_PART_1_4: u16 = 112;

pub const AT_ROLE_PART_2: u16 = 137;

pub const AT_ROLE_PART_2_2: u16 = 138;

pub const AT_ROLE_PART_2_3: u16 = 139;

pub const AT_ROLE_PART_2_PART_4: u16 = 140;

pub const AT_ROLE_PART_2_PART_4_PART_1: u16 = 141;

pub const AT_ROLE_PART_2_PART_4_PART_1_2: u16 = 142;

pub const AT_ROLE_PART_2_PART_4_PART_1_3: u16 = 143;

pub const AT_ROLE_PART_2_PART_4_PART_1_4: u16 = 112;

pub const AT_PRIMARY_OPTIONS: u16 = 11;

pub const AT_PRIMARY_OPTIONS_MANY: u16 = 144;

pub const AT_PRIMARY_OPTION: u16 = 12;

pub const AT_PRIMARY_OPTION_PART_1: u16 = 145;

pub const AT_TOKEN_PRIMARY_POWER_NET: u16 = 146;

pub const AT_PRIMARY_OPTION_PART_2: u16 = 147;

pub const AT_TOKEN_PRIMARY_GROUND_NET: u16 = 148;

pub const AT_SWITCH_OPTIONS: u16 = 13;

pub const AT_SWITCH_OPTIONS_MANY: u16 = 149;

pub const AT_SWITCH_OPTION: u16 = 14;

pub const AT_SWITCH_OPTION_PART_1: u16 = 120;

pub const AT_SWITCH_OPTION_2: u16 = 150;

pub const AT_SWITCH_OPTION_PART_2: u16 = 151;

pub const AT_TOKEN_OUTPUT_SUPPLY_PORT: u16 = 152;

pub const AT_SWITCH_OPTION_3: u16 = 153;

pub const AT_SWITCH_OPTION_PART_3: u16 = 154;

pub const AT_TOKEN_INPUT_SUPPLY_PORT: u16 = 155;

pub const AT_SWITCH_OPTION_4: u16 = 156;

pub const AT_SWITCH_OPTION_PART_4: u16 = 157;

pub const AT_TOKEN_CONTROL_PORT: u16 = 158;

pub const AT_SWITCH_OPTION_5: u16 = 159;

pub const AT_SWITCH_OPTION_PART_5: u16 = 160;

pub const AT_TOKEN_ON_STATE: u16 = 161;

pub const AT_SWITCH_OPTION_PART_5_2: u16 = 162;

pub const AT_SWITCH_OPTION_PART_5_3: u16 = 163;

pub const AT_SWITCH_OPTION_PART_5_4: u16 = 164;

pub const AT_SWITCH_OPTION_PART_5_5: u16 = 165;

pub const AT_SWITCH_OPTION_PART_6: u16 = 166;

pub const AT_TOKEN_OFF_STATE: u16 = 167;

pub const AT_SWITCH_OPTION_PART_6_2: u16 = 168;

pub const AT_SWITCH_OPTION_PART_6_3: u16 = 164;

pub const AT_SWITCH_OPTION_PART_6_4: u16 = 165;

pub const AT_PORT_STATE: u16 = 15;

pub const AT_TOKEN_STATE: u16 = 169;

pub const AT_PORT_STATE_2: u16 = 170;

pub const AT_PORT_STATE_3: u16 = 171;

pub const AT_PORT_STATE_4: u16 = 172;

pub const AT_VALUES: u16 = 16;

pub const AT_VALUES_PART_2: u16 = 173;

pub const AT_VALUES_PART_2_PART_1: u16 = 174;

pub const AT_VALUES_PART_2_PART_1_PART_2: u16 = 175;

pub const AT_ROW_OPTIONS: u16 = 17;

pub const AT_ROW_OPTIONS_MANY: u16 = 176;

pub const AT_ROW_OPTION: u16 = 18;

pub const AT_ROW_OPTION_PART_1: u16 = 177;

pub const AT_TOKEN_PST: u16 = 178;

pub const AT_ROW_OPTION_PART_2: u16 = 179;

pub const AT_ISOLATION_OPTIONS: u16 = 19;

pub const AT_ISOLATION_OPTIONS_MANY: u16 = 180;

pub const AT_ISOLATION_OPTION: u16 = 20;

pub const AT_ISOLATION_OPTION_PART_1: u16 = 120;

pub const AT_ISOLATION_OPTION_2: u16 = 181;

pub const AT_ISOLATION_OPTION_PART_2: u16 = 182;

pub const AT_TOKEN_APPLIES_TO: u16 = 183;

pub const AT_ISOLATION_OPTION_PART_2_PART_2: u16 = 184;

pub const AT_TOKEN_INPUTS: u16 = 185;

pub const AT_ISOLATION_OPTION_PART_2_PART_2_2: u16 = 186;

pub const AT_TOKEN_OUTPUTS: u16 = 187;

pub const AT_TOKEN_BOTH: u16 = 188;

pub const AT_ISOLATION_OPTION_3: u16 = 189;

pub const AT_ISOLATION_OPTION_PART_3: u16 = 102;

pub const AT_ISOLATION_OPTION_4: u16 = 190;

pub const AT_ISOLATION_OPTION_PART_4: u16 = 191;

pub const AT_TOKEN_CLAMP_VALUE: u16 = 192;

pub const AT_ISOLATION_OPTION_5: u16 = 193;

pub const AT_ISOLATION_OPTION_PART_5: u16 = 194;

pub const AT_TOKEN_ISOLATION_SIGNAL: u16 = 195;

pub const AT_ISOLATION_OPTION_6: u16 = 196;

pub const AT_ISOLATION_OPTION_PART_6: u16 = 197;

pub const AT_TOKEN_ISOLATION_SENSE: u16 = 198;

pub const AT_ISOLATION_OPTION_PART_6_PART_2: u16 = 199;

pub const AT_TOKEN_HIGH: u16 = 200;

pub const AT_TOKEN_LOW: u16 = 201;

pub const AT_ISOLATION_OPTION_7: u16 = 202;

pub const AT_ISOLATION_OPTION_PART_7: u16 = 203;

pub const AT_TOKEN_ISOLATION_SUPPLY: u16 = 204;

pub const AT_ISOLATION_OPTION_8: u16 = 205;

pub const AT_ISOLATION_OPTION_PART_8: u16 = 206;

pub const AT_TOKEN_LOCATION: u16 = 207;

pub const AT_TOKEN_NO_ISOLATION: u16 = 208;

pub const AT_RETENTION_OPTIONS: u16 = 21;

pub const AT_RETENTION_OPTIONS_MANY: u16 = 209;

pub const AT_RETENTION_OPTION: u16 = 22;

pub const AT_RETENTION_OPTION_PART_1: u16 = 120;

pub const AT_RETENTION_OPTION_2: u16 = 210;

pub const AT_RETENTION_OPTION_PART_2: u16 = 102;

pub const AT_RETENTION_OPTION_3: u16 = 211;

pub const AT_RETENTION_OPTION_PART_3: u16 = 212;

pub const AT_TOKEN_RETENTION_SUPPLY: u16 = 213;

pub const AT_RETENTION_OPTION_4: u16 = 214;

pub const AT_RETENTION_OPTION_PART_4: u16 = 215;

pub const AT_TOKEN_SAVE_SIGNAL: u16 = 216;

pub const AT_RETENTION_OPTION_PART_5: u16 = 217;

pub const AT_TOKEN_RESTORE_SIGNAL: u16 = 218;

pub const AT_CONTROL: u16 = 23;

pub const AT_CONTROL_2: u16 = 219;

pub const AT_CONTROL_3: u16 = 220;

pub const AT_CONTROL_PART_3: u16 = 221;

pub const AT_CONTROL_PART_3_2: u16 = 222;

pub const AT_CONTROL_PART_3_3: u16 = 223;

pub const AT_TOKEN_POSEDGE: u16 = 224;

pub const AT_TOKEN_NEGEDGE: u16 = 225;

pub const AT_TWO_NAMES: u16 = 24;

pub const AT_TWO_NAMES_2: u16 = 226;

pub const AT_TWO_NAMES_3: u16 = 112;

pub const AT_LIST: u16 = 25;

pub const AT_LIST_PART_2: u16 = 227;

pub const AT_LIST_PART_2_2: u16 = 228;

pub const AT_LIST_PART_2_PART_2: u16 = 229;

pub const AT_NAME: u16 = 26;

pub const AT_NAME_PART_2: u16 = 230;

pub const AT_NAME_PART_2_2: u16 = 231;

pub const AT_GROUP: u16 = 27;

pub const AT_GROUP_2: u16 = 232;

pub const AT_GROUP_PART_2: u16 = 95;

pub const AT_PIECE: u16 = 28;

pub const AT_PLAIN: u16 = 29;

pub const AT_TOKEN_WORD: u16 = 233;

pub const AT_PLAIN_2: u16 = 234;

pub const AT_TOKEN_TEXT: u16 = 235;

pub const AT_PLAIN_3: u16 = 236;

pub const AT_PLAIN_PART_3: u16 = 237;

pub const AT_PLAIN_PART_3_PART_1: u16 = 238;

pub const AT_PLAIN_PART_3_PART_1_2: u16 = 239;

pub const AT_PLAIN_PART_3_PART_1_3: u16 = 240;

pub const AT_PLAIN_PART_3_2: u16 = 241;

pub const AT_PLAIN_PART_3_PART_2: u16 = 242;

pub const AT_PLAIN_PART_3_PART_2_2: u16 = 243;

pub const AT_PLAIN_PART_3_PART_2_3: u16 = 244;

pub const AT_PLAIN_PART_3_3: u16 = 245;

pub const AT_PLAIN_PART_3_PART_3: u16 = 246;

pub const AT_PLAIN_PART_3_PART_3_2: u16 = 247;

pub const AT_PLAIN_PART_3_PART_3_3: u16 = 248;

pub const AT_PLAIN_PART_3_PART_4: u16 = 249;

pub const AT_PLAIN_PART_3_PART_4_2: u16 = 250;

pub const AT_PLAIN_PART_3_PART_4_3: u16 = 251;

pub const AT_PLAIN_4: u16 = 252;

pub const AT_PLAIN_PART_4: u16 = 253;

pub const AT_PLAIN_PART_4_PART_1: u16 = 254;

pub const AT_PLAIN_PART_4_PART_1_2: u16 = 255;

pub const AT_PLAIN_PART_4_PART_1_3: u16 = 256;

pub const AT_PLAIN_PART_4_2: u16 = 257;

pub const AT_PLAIN_PART_4_PART_2: u16 = 258;

pub const AT_PLAIN_PART_4_PART_2_2: u16 = 259;

pub const AT_PLAIN_PART_4_PART_2_3: u16 = 260;

pub const AT_PLAIN_PART_4_3: u16 = 261;

pub const AT_PLAIN_PART_4_PART_3: u16 = 262;

pub const AT_PLAIN_PART_4_PART_3_2: u16 = 263;

pub const AT_PLAIN_PART_4_PART_3_3: u16 = 264;

pub const AT_PLAIN_PART_4_PART_4: u16 = 265;

pub const AT_PLAIN_PART_4_PART_4_2: u16 = 266;

pub const AT_PLAIN_PART_4_PART_4_3: u16 = 267;

pub const AT_PLAIN_5: u16 = 268;

pub const AT_PLAIN_PART_5: u16 = 269;

pub const AT_PLAIN_PART_5_PART_1: u16 = 270;

pub const AT_PLAIN_PART_5_PART_1_2: u16 = 271;

pub const AT_PLAIN_PART_5_PART_1_3: u16 = 272;

pub const AT_PLAIN_PART_5_2: u16 = 273;

pub const AT_PLAIN_PART_5_PART_2: u16 = 274;

pub const AT_PLAIN_PART_5_PART_2_2: u16 = 275;

pub const AT_PLAIN_PART_5_PART_2_3: u16 = 276;

pub const AT_PLAIN_PART_5_3: u16 = 277;

pub const AT_PLAIN_PART_5_PART_3: u16 = 278;

pub const AT_PLAIN_PART_5_PART_3_2: u16 = 279;

pub const AT_PLAIN_PART_5_PART_3_3: u16 = 280;

pub const AT_PLAIN_PART_5_PART_4: u16 = 281;

pub const AT_PLAIN_PART_5_PART_4_2: u16 = 282;

pub const AT_PLAIN_PART_5_PART_4_3: u16 = 283;

pub const AT_PLAIN_PART_6: u16 = 284;

pub const AT_PLAIN_PART_6_PART_1: u16 = 285;

pub const AT_PLAIN_PART_6_PART_1_2: u16 = 286;

pub const AT_PLAIN_PART_6_PART_1_3: u16 = 199;

pub const AT_PLAIN_PART_6_2: u16 = 287;

pub const AT_PLAIN_PART_6_PART_2: u16 = 288;

pub const AT_PLAIN_PART_6_PART_2_2: u16 = 289;

pub const AT_PLAIN_PART_6_PART_2_3: u16 = 290;

pub static UPF: [Entry; 291] = [
    Entry {
        form: Form::Sequence(30, 32),
        nullable: true,
        first: 2305843009213825023,
        goes_on: 2305843009213825023,
        opened: 0,
        rank: 20,
        height: 1,
    },
    Entry {
        form: Form::Sequence(2, 33),
        nullable: false,
        first: 131071,
        goes_on: 2305843009213693952,
        opened: 0,
        rank: 18,
        height: 5,
    },
    Entry {
        form: Form::Choice(34, 36),
        nullable: false,
        first: 131071,
        goes_on: 1152921504606846975,
        opened: 0,
        rank: 17,
        height: 4,
    },
    Entry {
        form: Form::Once(
            101,
            Bounds {
                once: 917504,
                needed: 0,
            },
        ),
        nullable: true,
        first: 917504,
        goes_on: 917504,
        opened: 0,
        rank: 5,
        height: 0,
    },
    Entry {
        form: Form::Choice(102, 104),
        nullable: false,
        first: 917504,
        goes_on: 0,
        opened: 0,
        rank: 3,
        height: 2,
    },
    Entry {
        form: Form::Once(
            114,
            Bounds {
                once: 3145728,
                needed: 0,
            },
        ),
        nullable: true,
        first: 3145728,
        goes_on: 3145728,
        opened: 0,
        rank: 4,
        height: 0,
    },
    Entry {
        form: Form::Choice(115, 120),
        nullable: false,
        first: 3145728,
        goes_on: 0,
        opened: 0,
        rank: 2,
        height: 3,
    },
    Entry {
        form: Form::Once(
            122,
            Bounds {
                once: 6291456,
                needed: 0,
            },
        ),
        nullable: true,
        first: 6291456,
        goes_on: 6291456,
        opened: 0,
        rank: 4,
        height: 0,
    },
    Entry {
        form: Form::Choice(120, 123),
        nullable: false,
        first: 6291456,
        goes_on: 0,
        opened: 0,
        rank: 2,
        height: 1,
    },
    Entry {
        form: Form::Choice(124, 127),
        nullable: true,
        first: 16777216,
        goes_on: 16777216,
        opened: 0,
        rank: 2,
        height: 1,
    },
    Entry {
        form: Form::Choice(128, 137),
        nullable: false,
        first: 54043195528445952,
        goes_on: 16777216,
        opened: 0,
        rank: 2,
        height: 5,
    },
    Entry {
        form: Form::Once(
            144,
            Bounds {
                once: 100663296,
                needed: 0,
            },
        ),
        nullable: true,
        first: 100663296,
        goes_on: 100663296,
        opened: 0,
        rank: 4,
        height: 0,
    },
    Entry {
        form: Form::Choice(145, 147),
        nullable: false,
        first: 100663296,
        goes_on: 0,
        opened: 0,
        rank: 2,
        height: 4,
    },
    Entry {
        form: Form::Once(
            149,
            Bounds {
                once: 1478492160,
                needed: 1476395008,
            },
        ),
        nullable: false,
        first: 4162846720,
        goes_on: 4162846720,
        opened: 0,
        rank: 8,
        height: 8,
    },
    Entry {
        form: Form::Choice(120, 150),
        nullable: false,
        first: 4162846720,
        goes_on: 0,
        opened: 0,
        rank: 6,
        height: 4,
    },
    Entry {
        form: Form::Sequence(169, 170),
        nullable: false,
        first: 4294967296,
        goes_on: 0,
        opened: 0,
        rank: 1,
        height: 7,
    },
    Entry {
        form: Form::Sequence(26, 173),
        nullable: false,
        first: 1152921504606846975,
        goes_on: 1152921504606846975,
        opened: 0,
        rank: 13,
        height: 3,
    },
    Entry {
        form: Form::Once(
            176,
            Bounds {
                once: 21474836480,
                needed: 21474836480,
            },
        ),
        nullable: false,
        first: 21474836480,
        goes_on: 21474836480,
        opened: 0,
        rank: 4,
        height: 4,
    },
    Entry {
        form: Form::Choice(177, 179),
        nullable: false,
        first: 21474836480,
        goes_on: 0,
        opened: 0,
        rank: 2,
        height: 4,
    },
    Entry {
        form: Form::Once(
            180,
            Bounds {
                once: 4363689000960,
                needed: 2097152,
            },
        ),
        nullable: false,
        first: 4363689000960,
        goes_on: 4363689000960,
        opened: 0,
        rank: 11,
        height: 4,
    },
    Entry {
        form: Form::Choice(120, 181),
        nullable: false,
        first: 4363689000960,
        goes_on: 0,
        opened: 0,
        rank: 9,
        height: 4,
    },
    Entry {
        form: Form::Once(
            209,
            Bounds {
                once: 30786327805952,
                needed: 2097152,
            },
        ),
        nullable: false,
        first: 30786327805952,
        goes_on: 30786327805952,
        opened: 0,
        rank: 7,
        height: 4,
    },
    Entry {
        form: Form::Choice(120, 210),
        nullable: false,
        first: 30786327805952,
        goes_on: 0,
        opened: 0,
        rank: 5,
        height: 4,
    },
    Entry {
        form: Form::Sequence(109, 219),
        nullable: false,
        first: 576460752303423488,
        goes_on: 0,
        opened: 0,
        rank: 1,
        height: 4,
    },
    Entry {
        form: Form::Sequence(109, 226),
        nullable: false,
        first: 576460752303423488,
        goes_on: 0,
        opened: 0,
        rank: 1,
        height: 5,
    },
    Entry {
        form: Form::Choice(29, 227),
        nullable: false,
        first: 1152921504606846975,
        goes_on: 0,
        opened: 0,
        rank: 12,
        height: 2,
    },
    Entry {
        form: Form::Choice(29, 230),
        nullable: false,
        first: 1152921504606846975,
        goes_on: 0,
        opened: 0,
        rank: 12,
        height: 2,
    },
    Entry {
        form: Form::Sequence(109, 232),
        nullable: false,
        first: 576460752303423488,
        goes_on: 0,
        opened: 0,
        rank: 1,
        height: 2,
    },
    Entry {
        form: Form::Choice(29, 27),
        nullable: false,
        first: 1152921504606846975,
        goes_on: 0,
        opened: 0,
        rank: 12,
        height: 3,
    },
    Entry {
        form: Form::Choice(233, 234),
        nullable: false,
        first: 576460752303423487,
        goes_on: 0,
        opened: 0,
        rank: 11,
        height: 1,
    },
    Entry {
        form: Form::Repeat(31),
        nullable: true,
        first: 2305843009213693952,
        goes_on: 2305843009213693952,
        opened: 0,
        rank: 1,
        height: 0,
    },
    Entry {
        form: Form::Terminal(61),
        nullable: false,
        first: 2305843009213693952,
        goes_on: 0,
        opened: 0,
        rank: 0,
        height: 0,
    },
    Entry {
        form: Form::Repeat(1),
        nullable: true,
        first: 131071,
        goes_on: 2305843009213825023,
        opened: 0,
        rank: 19,
        height: 0,
    },
    Entry {
        form: Form::Sequence(31, 30),
        nullable: false,
        first: 2305843009213693952,
        goes_on: 2305843009213693952,
        opened: 0,
        rank: 1,
        height: 1,
    },
    Entry {
        form: Form::Sequence(35, 26),
        nullable: false,
        first: 1,
        goes_on: 0,
        opened: 0,
        rank: 1,
        height: 3,
    },
    Entry {
        form: Form::Terminal(0),
        nullable: false,
        first: 1,
        goes_on: 0,
        opened: 0,
        rank: 0,
        height: 0,
    },
    Entry {
        form: Form::Choice(37, 39),
        nullable: false,
        first: 131070,
        goes_on: 1152921504606846975,
        opened: 0,
        rank: 16,
        height: 4,
    },
    Entry {
        form: Form::Sequence(38, 26),
        nullable: false,
        first: 2,
        goes_on: 0,
        opened: 0,
        rank: 1,
        height: 3,
    },
    Entry {
        form: Form::Terminal(1),
        nullable: false,
        first: 2,
        goes_on: 0,
        opened: 0,
        rank: 0,
        height: 0,
    },
    Entry {
        form: Form::Choice(40, 43),
        nullable: false,
        first: 131068,
        goes_on: 1152921504606846975,
        opened: 0,
        rank: 15,
        height: 5,
    },
    Entry {
        form: Form::Sequence(41, 42),
        nullable: false,
        first: 4,
        goes_on: 917504,
        opened: 0,
        rank: 1,
        height: 4,
    },
    Entry {
        form: Form::Terminal(2),
        nullable: false,
        first: 4,
        goes_on: 0,
        opened: 0,
        rank: 0,
        height: 0,
    },
    Entry {
        form: Form::Sequence(26, 3),
        nullable: false,
        first: 1152921504606846975,
        goes_on: 917504,
        opened: 0,
        rank: 13,
        height: 3,
    },
    Entry {
        form: Form::Choice(44, 47),
        nullable: false,
        first: 131064,
        goes_on: 1152921504606846975,
        opened: 0,
        rank: 14,
        height: 5,
    },
    Entry {
        form: Form::Sequence(45, 46),
        nullable: false,
        first: 8,
        goes_on: 3145728,
        opened: 0,
        rank: 1,
        height: 4,
    },
    Entry {
        form: Form::Terminal(3),
        nullable: false,
        first: 8,
        goes_on: 0,
        opened: 0,
        rank: 0,
        height: 0,
    },
    Entry {
        form: Form::Sequence(26, 5),
        nullable: false,
        first: 1152921504606846975,
        goes_on: 3145728,
        opened: 0,
        rank: 13,
        height: 3,
    },
    Entry {
        form: Form::Choice(48, 51),
        nullable: false,
        first: 131056,
        goes_on: 1152921504606846975,
        opened: 0,
        rank: 13,
        height: 5,
    },
    Entry {
        form: Form::Sequence(49, 50),
        nullable: false,
        first: 16,
        goes_on: 6291456,
        opened: 0,
        rank: 1,
        height: 4,
    },
    Entry {
        form: Form::Terminal(4),
        nullable: false,
        first: 16,
        goes_on: 0,
        opened: 0,
        rank: 0,
        height: 0,
    },
    Entry {
        form: Form::Sequence(26, 7),
        nullable: false,
        first: 1152921504606846975,
        goes_on: 6291456,
        opened: 0,
        rank: 13,
        height: 3,
    },
    Entry {
        form: Form::Choice(52, 57),
        nullable: false,
        first: 131040,
        goes_on: 1152921504606846975,
        opened: 0,
        rank: 12,
        height: 6,
    },
    Entry {
        form: Form::Sequence(53, 54),
        nullable: false,
        first: 32,
        goes_on: 0,
        opened: 0,
        rank: 1,
        height: 5,
    },
    Entry {
        form: Form::Terminal(5),
        nullable: false,
        first: 32,
        goes_on: 0,
        opened: 0,
        rank: 0,
        height: 0,
    },
    Entry {
        form: Form::Sequence(26, 55),
        nullable: false,
        first: 1152921504606846975,
        goes_on: 0,
        opened: 0,
        rank: 13,
        height: 4,
    },
    Entry {
        form: Form::Sequence(56, 25),
        nullable: false,
        first: 8388608,
        goes_on: 0,
        opened: 0,
        rank: 1,
        height: 3,
    },
    Entry {
        form: Form::Terminal(23),
        nullable: false,
        first: 8388608,
        goes_on: 0,
        opened: 0,
        rank: 0,
        height: 0,
    },
    Entry {
        form: Form::Choice(58, 61),
        nullable: false,
        first: 131008,
        goes_on: 1152921504606846975,
        opened: 0,
        rank: 11,
        height: 5,
    },
    Entry {
        form: Form::Sequence(59, 60),
        nullable: false,
        first: 64,
        goes_on: 16777216,
        opened: 0,
        rank: 1,
        height: 4,
    },
    Entry {
        form: Form::Terminal(6),
        nullable: false,
        first: 64,
        goes_on: 0,
        opened: 0,
        rank: 0,
        height: 0,
    },
    Entry {
        form: Form::Sequence(26, 9),
        nullable: false,
        first: 1152921504606846975,
        goes_on: 16777216,
        opened: 0,
        rank: 13,
        height: 3,
    },
    Entry {
        form: Form::Choice(62, 65),
        nullable: false,
        first: 130944,
        goes_on: 1152921504606846975,
        opened: 0,
        rank: 10,
        height: 5,
    },
    Entry {
        form: Form::Sequence(63, 64),
        nullable: false,
        first: 128,
        goes_on: 100663296,
        opened: 0,
        rank: 1,
        height: 4,
    },
    Entry {
        form: Form::Terminal(7),
        nullable: false,
        first: 128,
        goes_on: 0,
        opened: 0,
        rank: 0,
        height: 0,
    },
    Entry {
        form: Form::Sequence(26, 11),
        nullable: false,
        first: 1152921504606846975,
        goes_on: 100663296,
        opened: 0,
        rank: 13,
        height: 3,
    },
    Entry {
        form: Form::Choice(66, 69),
        nullable: false,
        first: 130816,
        goes_on: 1152921504606846975,
        opened: 0,
        rank: 9,
        height: 6,
    },
    Entry {
        form: Form::Sequence(67, 68),
        nullable: false,
        first: 256,
        goes_on: 4162846720,
        opened: 0,
        rank: 1,
        height: 10,
    },
    Entry {
        form: Form::Terminal(8),
        nullable: false,
        first: 256,
        goes_on: 0,
        opened: 0,
        rank: 0,
        height: 0,
    },
    Entry {
        form: Form::Sequence(26, 13),
        nullable: false,
        first: 1152921504606846975,
        goes_on: 4162846720,
        opened: 0,
        rank: 13,
        height: 9,
    },
    Entry {
        form: Form::Choice(70, 74),
        nullable: false,
        first: 130560,
        goes_on: 1152921504606846975,
        opened: 0,
        rank: 8,
        height: 5,
    },
    Entry {
        form: Form::Sequence(71, 72),
        nullable: false,
        first: 512,
        goes_on: 4294967296,
        opened: 0,
        rank: 1,
        height: 4,
    },
    Entry {
        form: Form::Terminal(9),
        nullable: false,
        first: 512,
        goes_on: 0,
        opened: 0,
        rank: 0,
        height: 0,
    },
    Entry {
        form: Form::Sequence(26, 73),
        nullable: false,
        first: 1152921504606846975,
        goes_on: 4294967296,
        opened: 0,
        rank: 13,
        height: 3,
    },
    Entry {
        form: Form::Repeat(15),
        nullable: true,
        first: 4294967296,
        goes_on: 4294967296,
        opened: 0,
        rank: 2,
        height: 0,
    },
    Entry {
        form: Form::Choice(75, 80),
        nullable: false,
        first: 130048,
        goes_on: 1152921504606846975,
        opened: 0,
        rank: 7,
        height: 6,
    },
    Entry {
        form: Form::Sequence(76, 77),
        nullable: false,
        first: 1024,
        goes_on: 0,
        opened: 0,
        rank: 1,
        height: 5,
    },
    Entry {
        form: Form::Terminal(10),
        nullable: false,
        first: 1024,
        goes_on: 0,
        opened: 0,
        rank: 0,
        height: 0,
    },
    Entry {
        form: Form::Sequence(26, 78),
        nullable: false,
        first: 1152921504606846975,
        goes_on: 0,
        opened: 0,
        rank: 13,
        height: 4,
    },
    Entry {
        form: Form::Sequence(79, 25),
        nullable: false,
        first: 8589934592,
        goes_on: 0,
        opened: 0,
        rank: 1,
        height: 3,
    },
    Entry {
        form: Form::Terminal(33),
        nullable: false,
        first: 8589934592,
        goes_on: 0,
        opened: 0,
        rank: 0,
        height: 0,
    },
    Entry {
        form: Form::Choice(81, 84),
        nullable: false,
        first: 129024,
        goes_on: 1152921504606846975,
        opened: 0,
        rank: 6,
        height: 5,
    },
    Entry {
        form: Form::Sequence(82, 83),
        nullable: false,
        first: 2048,
        goes_on: 21474836480,
        opened: 0,
        rank: 1,
        height: 6,
    },
    Entry {
        form: Form::Terminal(11),
        nullable: false,
        first: 2048,
        goes_on: 0,
        opened: 0,
        rank: 0,
        height: 0,
    },
    Entry {
        form: Form::Sequence(26, 17),
        nullable: false,
        first: 1152921504606846975,
        goes_on: 21474836480,
        opened: 0,
        rank: 13,
        height: 5,
    },
    Entry {
        form: Form::Choice(85, 88),
        nullable: false,
        first: 126976,
        goes_on: 1152921504606846975,
        opened: 0,
        rank: 5,
        height: 4,
    },
    Entry {
        form: Form::Sequence(86, 87),
        nullable: false,
        first: 4096,
        goes_on: 4363689000960,
        opened: 0,
        rank: 1,
        height: 6,
    },
    Entry {
        form: Form::Terminal(12),
        nullable: false,
        first: 4096,
        goes_on: 0,
        opened: 0,
        rank: 0,
        height: 0,
    },
    Entry {
        form: Form::Sequence(26, 19),
        nullable: false,
        first: 1152921504606846975,
        goes_on: 4363689000960,
        opened: 0,
        rank: 13,
        height: 5,
    },
    Entry {
        form: Form::Choice(89, 92),
        nullable: false,
        first: 122880,
        goes_on: 1152921504606846975,
        opened: 0,
        rank: 4,
        height: 3,
    },
    Entry {
        form: Form::Sequence(90, 91),
        nullable: false,
        first: 8192,
        goes_on: 30786327805952,
        opened: 0,
        rank: 1,
        height: 6,
    },
    Entry {
        form: Form::Terminal(13),
        nullable: false,
        first: 8192,
        goes_on: 0,
        opened: 0,
        rank: 0,
        height: 0,
    },
    Entry {
        form: Form::Sequence(26, 21),
        nullable: false,
        first: 1152921504606846975,
        goes_on: 30786327805952,
        opened: 0,
        rank: 13,
        height: 5,
    },
    Entry {
        form: Form::Choice(93, 96),
        nullable: false,
        first: 114688,
        goes_on: 1152921504606846975,
        opened: 0,
        rank: 3,
        height: 2,
    },
    Entry {
        form: Form::Sequence(94, 95),
        nullable: false,
        first: 16384,
        goes_on: 1152921504606846975,
        opened: 0,
        rank: 1,
        height: 1,
    },
    Entry {
        form: Form::Terminal(14),
        nullable: false,
        first: 16384,
        goes_on: 0,
        opened: 0,
        rank: 0,
        height: 0,
    },
    Entry {
        form: Form::Repeat(28),
        nullable: true,
        first: 1152921504606846975,
        goes_on: 1152921504606846975,
        opened: 0,
        rank: 13,
        height: 0,
    },
    Entry {
        form: Form::Choice(97, 99),
        nullable: false,
        first: 98304,
        goes_on: 1152921504606846975,
        opened: 0,
        rank: 2,
        height: 2,
    },
    Entry {
        form: Form::Sequence(98, 95),
        nullable: false,
        first: 32768,
        goes_on: 1152921504606846975,
        opened: 0,
        rank: 1,
        height: 1,
    },
    Entry {
        form: Form::Terminal(15),
        nullable: false,
        first: 32768,
        goes_on: 0,
        opened: 0,
        rank: 0,
        height: 0,
    },
    Entry {
        form: Form::Sequence(100, 95),
        nullable: false,
        first: 65536,
        goes_on: 1152921504606846975,
        opened: 0,
        rank: 1,
        height: 1,
    },
    Entry {
        form: Form::Terminal(16),
        nullable: false,
        first: 65536,
        goes_on: 0,
        opened: 0,
        rank: 0,
        height: 0,
    },
    Entry {
        form: Form::Repeat(4),
        nullable: true,
        first: 917504,
        goes_on: 917504,
        opened: 0,
        rank: 4,
        height: 0,
    },
    Entry {
        form: Form::Sequence(103, 25),
        nullable: false,
        first: 131072,
        goes_on: 0,
        opened: 0,
        rank: 1,
        height: 3,
    },
    Entry {
        form: Form::Terminal(17),
        nullable: false,
        first: 131072,
        goes_on: 0,
        opened: 0,
        rank: 0,
        height: 0,
    },
    Entry {
        form: Form::Choice(105, 106),
        nullable: false,
        first: 786432,
        goes_on: 0,
        opened: 0,
        rank: 2,
        height: 1,
    },
    Entry {
        form: Form::Terminal(18),
        nullable: false,
        first: 262144,
        goes_on: 0,
        opened: 0,
        rank: 0,
        height: 0,
    },
    Entry {
        form: Form::Sequence(107, 108),
        nullable: false,
        first: 524288,
        goes_on: 0,
        opened: 0,
        rank: 1,
        height: 6,
    },
    Entry {
        form: Form::Terminal(19),
        nullable: false,
        first: 524288,
        goes_on: 0,
        opened: 0,
        rank: 0,
        height: 0,
    },
    Entry {
        form: Form::Sequence(109, 110),
        nullable: false,
        first: 576460752303423488,
        goes_on: 0,
        opened: 0,
        rank: 1,
        height: 5,
    },
    Entry {
        form: Form::Terminal(59),
        nullable: false,
        first: 576460752303423488,
        goes_on: 0,
        opened: 0,
        rank: 0,
        height: 0,
    },
    Entry {
        form: Form::Sequence(111, 112),
        nullable: false,
        first: 72057594037927936,
        goes_on: 0,
        opened: 0,
        rank: 1,
        height: 4,
    },
    Entry {
        form: Form::Terminal(56),
        nullable: false,
        first: 72057594037927936,
        goes_on: 0,
        opened: 0,
        rank: 0,
        height: 0,
    },
    Entry {
        form: Form::Sequence(26, 113),
        nullable: false,
        first: 1152921504606846975,
        goes_on: 0,
        opened: 0,
        rank: 13,
        height: 3,
    },
    Entry {
        form: Form::Terminal(60),
        nullable: false,
        first: 1152921504606846976,
        goes_on: 0,
        opened: 0,
        rank: 0,
        height: 0,
    },
    Entry {
        form: Form::Repeat(6),
        nullable: true,
        first: 3145728,
        goes_on: 3145728,
        opened: 0,
        rank: 3,
        height: 0,
    },
    Entry {
        form: Form::Sequence(116, 117),
        nullable: false,
        first: 1048576,
        goes_on: 0,
        opened: 0,
        rank: 1,
        height: 2,
    },
    Entry {
        form: Form::Terminal(20),
        nullable: false,
        first: 1048576,
        goes_on: 0,
        opened: 0,
        rank: 0,
        height: 0,
    },
    Entry {
        form: Form::Choice(118, 119),
        nullable: false,
        first: 105553116266496,
        goes_on: 0,
        opened: 0,
        rank: 1,
        height: 1,
    },
    Entry {
        form: Form::Terminal(45),
        nullable: false,
        first: 35184372088832,
        goes_on: 0,
        opened: 0,
        rank: 0,
        height: 0,
    },
    Entry {
        form: Form::Terminal(46),
        nullable: false,
        first: 70368744177664,
        goes_on: 0,
        opened: 0,
        rank: 0,
        height: 0,
    },
    Entry {
        form: Form::Sequence(121, 26),
        nullable: false,
        first: 2097152,
        goes_on: 0,
        opened: 0,
        rank: 1,
        height: 3,
    },
    Entry {
        form: Form::Terminal(21),
        nullable: false,
        first: 2097152,
        goes_on: 0,
        opened: 0,
        rank: 0,
        height: 0,
    },
    Entry {
        form: Form::Repeat(8),
        nullable: true,
        first: 6291456,
        goes_on: 6291456,
        opened: 0,
        rank: 3,
        height: 0,
    },
    Entry {
        form: Form::Terminal(22),
        nullable: false,
        first: 4194304,
        goes_on: 0,
        opened: 0,
        rank: 0,
        height: 0,
    },
    Entry {
        form: Form::Sequence(125, 126),
        nullable: false,
        first: 16777216,
        goes_on: 16777216,
        opened: 0,
        rank: 1,
        height: 7,
    },
    Entry {
        form: Form::Terminal(24),
        nullable: false,
        first: 16777216,
        goes_on: 0,
        opened: 0,
        rank: 0,
        height: 0,
    },
    Entry {
        form: Form::Sequence(109, 10),
        nullable: false,
        first: 576460752303423488,
        goes_on: 16777216,
        opened: 0,
        rank: 1,
        height: 6,
    },
    Entry {
        form: Form::Empty,
        nullable: true,
        first: 0,
        goes_on: 0,
        opened: 0,
        rank: 0,
        height: 0,
    },
    Entry {
        form: Form::Sequence(129, 130),
        nullable: false,
        first: 18014398509481984,
        goes_on: 16777216,
        opened: 0,
        rank: 1,
        height: 4,
    },
    Entry {
        form: Form::Terminal(54),
        nullable: false,
        first: 18014398509481984,
        goes_on: 0,
        opened: 0,
        rank: 0,
        height: 0,
    },
    Entry {
        form: Form::Sequence(26, 131),
        nullable: false,
        first: 1152921504606846975,
        goes_on: 16777216,
        opened: 0,
        rank: 13,
        height: 3,
    },
    Entry {
        form: Form::Sequence(113, 132),
        nullable: false,
        first: 1152921504606846976,
        goes_on: 16777216,
        opened: 0,
        rank: 1,
        height: 2,
    },
    Entry {
        form: Form::Choice(133, 127),
        nullable: true,
        first: 16777216,
        goes_on: 16777216,
        opened: 0,
        rank: 2,
        height: 1,
    },
    Entry {
        form: Form::Sequence(125, 134),
        nullable: false,
        first: 16777216,
        goes_on: 0,
        opened: 0,
        rank: 1,
        height: 6,
    },
    Entry {
        form: Form::Sequence(109, 135),
        nullable: false,
        first: 576460752303423488,
        goes_on: 0,
        opened: 0,
        rank: 1,
        height: 5,
    },
    Entry {
        form: Form::Sequence(136, 112),
        nullable: false,
        first: 36028797018963968,
        goes_on: 0,
        opened: 0,
        rank: 1,
        height: 4,
    },
    Entry {
        form: Form::Terminal(55),
        nullable: false,
        first: 36028797018963968,
        goes_on: 0,
        opened: 0,
        rank: 0,
        height: 0,
    },
    Entry {
        form: Form::Sequence(136, 138),
        nullable: false,
        first: 36028797018963968,
        goes_on: 16777216,
        opened: 0,
        rank: 1,
        height: 4,
    },
    Entry {
        form: Form::Sequence(26, 139),
        nullable: false,
        first: 1152921504606846975,
        goes_on: 16777216,
        opened: 0,
        rank: 13,
        height: 3,
    },
    Entry {
        form: Form::Sequence(113, 140),
        nullable: false,
        first: 1152921504606846976,
        goes_on: 16777216,
        opened: 0,
        rank: 1,
        height: 2,
    },
    Entry {
        form: Form::Choice(141, 127),
        nullable: true,
        first: 16777216,
        goes_on: 16777216,
        opened: 0,
        rank: 2,
        height: 1,
    },
    Entry {
        form: Form::Sequence(125, 142),
        nullable: false,
        first: 16777216,
        goes_on: 0,
        opened: 0,
        rank: 1,
        height: 6,
    },
    Entry {
        form: Form::Sequence(109, 143),
        nullable: false,
        first: 576460752303423488,
        goes_on: 0,
        opened: 0,
        rank: 1,
        height: 5,
    },
    Entry {
        form: Form::Sequence(129, 112),
        nullable: false,
        first: 18014398509481984,
        goes_on: 0,
        opened: 0,
        rank: 1,
        height: 4,
    },
    Entry {
        form: Form::Repeat(12),
        nullable: true,
        first: 100663296,
        goes_on: 100663296,
        opened: 0,
        rank: 3,
        height: 0,
    },
    Entry {
        form: Form::Sequence(146, 26),
        nullable: false,
        first: 33554432,
        goes_on: 0,
        opened: 0,
        rank: 1,
        height: 3,
    },
    Entry {
        form: Form::Terminal(25),
        nullable: false,
        first: 33554432,
        goes_on: 0,
        opened: 0,
        rank: 0,
        height: 0,
    },
    Entry {
        form: Form::Sequence(148, 26),
        nullable: false,
        first: 67108864,
        goes_on: 0,
        opened: 0,
        rank: 1,
        height: 3,
    },
    Entry {
        form: Form::Terminal(26),
        nullable: false,
        first: 67108864,
        goes_on: 0,
        opened: 0,
        rank: 0,
        height: 0,
    },
    Entry {
        form: Form::Repeat(14),
        nullable: true,
        first: 4162846720,
        goes_on: 4162846720,
        opened: 0,
        rank: 7,
        height: 0,
    },
    Entry {
        form: Form::Choice(151, 153),
        nullable: false,
        first: 4160749568,
        goes_on: 0,
        opened: 0,
        rank: 5,
        height: 7,
    },
    Entry {
        form: Form::Sequence(152, 24),
        nullable: false,
        first: 134217728,
        goes_on: 0,
        opened: 0,
        rank: 1,
        height: 6,
    },
    Entry {
        form: Form::Terminal(27),
        nullable: false,
        first: 134217728,
        goes_on: 0,
        opened: 0,
        rank: 0,
        height: 0,
    },
    Entry {
        form: Form::Choice(154, 156),
        nullable: false,
        first: 4026531840,
        goes_on: 0,
        opened: 0,
        rank: 4,
        height: 7,
    },
    Entry {
        form: Form::Sequence(155, 24),
        nullable: false,
        first: 268435456,
        goes_on: 0,
        opened: 0,
        rank: 1,
        height: 6,
    },
    Entry {
        form: Form::Terminal(28),
        nullable: false,
        first: 268435456,
        goes_on: 0,
        opened: 0,
        rank: 0,
        height: 0,
    },
    Entry {
        form: Form::Choice(157, 159),
        nullable: false,
        first: 3758096384,
        goes_on: 0,
        opened: 0,
        rank: 3,
        height: 7,
    },
    Entry {
        form: Form::Sequence(158, 24),
        nullable: false,
        first: 536870912,
        goes_on: 0,
        opened: 0,
        rank: 1,
        height: 6,
    },
    Entry {
        form: Form::Terminal(29),
        nullable: false,
        first: 536870912,
        goes_on: 0,
        opened: 0,
        rank: 0,
        height: 0,
    },
    Entry {
        form: Form::Choice(160, 166),
        nullable: false,
        first: 3221225472,
        goes_on: 0,
        opened: 0,
        rank: 2,
        height: 7,
    },
    Entry {
        form: Form::Sequence(161, 162),
        nullable: false,
        first: 1073741824,
        goes_on: 0,
        opened: 0,
        rank: 1,
        height: 7,
    },
    Entry {
        form: Form::Terminal(30),
        nullable: false,
        first: 1073741824,
        goes_on: 0,
        opened: 0,
        rank: 0,
        height: 0,
    },
    Entry {
        form: Form::Sequence(109, 163),
        nullable: false,
        first: 576460752303423488,
        goes_on: 0,
        opened: 0,
        rank: 1,
        height: 6,
    },
    Entry {
        form: Form::Sequence(26, 164),
        nullable: false,
        first: 1152921504606846975,
        goes_on: 0,
        opened: 0,
        rank: 13,
        height: 5,
    },
    Entry {
        form: Form::Sequence(26, 165),
        nullable: false,
        first: 1152921504606846975,
        goes_on: 0,
        opened: 0,
        rank: 13,
        height: 4,
    },
    Entry {
        form: Form::Sequence(27, 113),
        nullable: false,
        first: 576460752303423488,
        goes_on: 0,
        opened: 0,
        rank: 2,
        height: 3,
    },
    Entry {
        form: Form::Sequence(167, 168),
        nullable: false,
        first: 2147483648,
        goes_on: 0,
        opened: 0,
        rank: 1,
        height: 6,
    },
    Entry {
        form: Form::Terminal(31),
        nullable: false,
        first: 2147483648,
        goes_on: 0,
        opened: 0,
        rank: 0,
        height: 0,
    },
    Entry {
        form: Form::Sequence(109, 164),
        nullable: false,
        first: 576460752303423488,
        goes_on: 0,
        opened: 0,
        rank: 1,
        height: 5,
    },
    Entry {
        form: Form::Terminal(32),
        nullable: false,
        first: 4294967296,
        goes_on: 0,
        opened: 0,
        rank: 0,
        height: 0,
    },
    Entry {
        form: Form::Sequence(109, 171),
        nullable: false,
        first: 576460752303423488,
        goes_on: 0,
        opened: 0,
        rank: 1,
        height: 6,
    },
    Entry {
        form: Form::Sequence(26, 172),
        nullable: false,
        first: 1152921504606846975,
        goes_on: 0,
        opened: 0,
        rank: 13,
        height: 5,
    },
    Entry {
        form: Form::Sequence(16, 113),
        nullable: false,
        first: 1152921504606846975,
        goes_on: 0,
        opened: 0,
        rank: 14,
        height: 4,
    },
    Entry {
        form: Form::Choice(174, 127),
        nullable: true,
        first: 1152921504606846975,
        goes_on: 1152921504606846975,
        opened: 0,
        rank: 14,
        height: 1,
    },
    Entry {
        form: Form::Sequence(26, 175),
        nullable: false,
        first: 1152921504606846975,
        goes_on: 1152921504606846975,
        opened: 0,
        rank: 13,
        height: 3,
    },
    Entry {
        form: Form::Choice(26, 127),
        nullable: true,
        first: 1152921504606846975,
        goes_on: 1152921504606846975,
        opened: 0,
        rank: 13,
        height: 1,
    },
    Entry {
        form: Form::Repeat(18),
        nullable: true,
        first: 21474836480,
        goes_on: 21474836480,
        opened: 0,
        rank: 3,
        height: 0,
    },
    Entry {
        form: Form::Sequence(178, 26),
        nullable: false,
        first: 17179869184,
        goes_on: 0,
        opened: 0,
        rank: 1,
        height: 3,
    },
    Entry {
        form: Form::Terminal(34),
        nullable: false,
        first: 17179869184,
        goes_on: 0,
        opened: 0,
        rank: 0,
        height: 0,
    },
    Entry {
        form: Form::Sequence(169, 25),
        nullable: false,
        first: 4294967296,
        goes_on: 0,
        opened: 0,
        rank: 1,
        height: 3,
    },
    Entry {
        form: Form::Repeat(20),
        nullable: true,
        first: 4363689000960,
        goes_on: 4363689000960,
        opened: 0,
        rank: 10,
        height: 0,
    },
    Entry {
        form: Form::Choice(182, 189),
        nullable: false,
        first: 4363686903808,
        goes_on: 0,
        opened: 0,
        rank: 8,
        height: 3,
    },
    Entry {
        form: Form::Sequence(183, 184),
        nullable: false,
        first: 34359738368,
        goes_on: 0,
        opened: 0,
        rank: 1,
        height: 2,
    },
    Entry {
        form: Form::Terminal(35),
        nullable: false,
        first: 34359738368,
        goes_on: 0,
        opened: 0,
        rank: 0,
        height: 0,
    },
    Entry {
        form: Form::Choice(185, 186),
        nullable: false,
        first: 985162418487296,
        goes_on: 0,
        opened: 0,
        rank: 2,
        height: 1,
    },
    Entry {
        form: Form::Terminal(47),
        nullable: false,
        first: 140737488355328,
        goes_on: 0,
        opened: 0,
        rank: 0,
        height: 0,
    },
    Entry {
        form: Form::Choice(187, 188),
        nullable: false,
        first: 844424930131968,
        goes_on: 0,
        opened: 0,
        rank: 1,
        height: 1,
    },
    Entry {
        form: Form::Terminal(48),
        nullable: false,
        first: 281474976710656,
        goes_on: 0,
        opened: 0,
        rank: 0,
        height: 0,
    },
    Entry {
        form: Form::Terminal(49),
        nullable: false,
        first: 562949953421312,
        goes_on: 0,
        opened: 0,
        rank: 0,
        height: 0,
    },
    Entry {
        form: Form::Choice(102, 190),
        nullable: false,
        first: 4329327165440,
        goes_on: 0,
        opened: 0,
        rank: 7,
        height: 4,
    },
    Entry {
        form: Form::Choice(191, 193),
        nullable: false,
        first: 4329327034368,
        goes_on: 0,
        opened: 0,
        rank: 6,
        height: 4,
    },
    Entry {
        form: Form::Sequence(192, 26),
        nullable: false,
        first: 68719476736,
        goes_on: 0,
        opened: 0,
        rank: 1,
        height: 3,
    },
    Entry {
        form: Form::Terminal(36),
        nullable: false,
        first: 68719476736,
        goes_on: 0,
        opened: 0,
        rank: 0,
        height: 0,
    },
    Entry {
        form: Form::Choice(194, 196),
        nullable: false,
        first: 4260607557632,
        goes_on: 0,
        opened: 0,
        rank: 5,
        height: 4,
    },
    Entry {
        form: Form::Sequence(195, 26),
        nullable: false,
        first: 137438953472,
        goes_on: 0,
        opened: 0,
        rank: 1,
        height: 3,
    },
    Entry {
        form: Form::Terminal(37),
        nullable: false,
        first: 137438953472,
        goes_on: 0,
        opened: 0,
        rank: 0,
        height: 0,
    },
    Entry {
        form: Form::Choice(197, 202),
        nullable: false,
        first: 4123168604160,
        goes_on: 0,
        opened: 0,
        rank: 4,
        height: 3,
    },
    Entry {
        form: Form::Sequence(198, 199),
        nullable: false,
        first: 274877906944,
        goes_on: 0,
        opened: 0,
        rank: 1,
        height: 2,
    },
    Entry {
        form: Form::Terminal(38),
        nullable: false,
        first: 274877906944,
        goes_on: 0,
        opened: 0,
        rank: 0,
        height: 0,
    },
    Entry {
        form: Form::Choice(200, 201),
        nullable: false,
        first: 3377699720527872,
        goes_on: 0,
        opened: 0,
        rank: 1,
        height: 1,
    },
    Entry {
        form: Form::Terminal(50),
        nullable: false,
        first: 1125899906842624,
        goes_on: 0,
        opened: 0,
        rank: 0,
        height: 0,
    },
    Entry {
        form: Form::Terminal(51),
        nullable: false,
        first: 2251799813685248,
        goes_on: 0,
        opened: 0,
        rank: 0,
        height: 0,
    },
    Entry {
        form: Form::Choice(203, 205),
        nullable: false,
        first: 3848290697216,
        goes_on: 0,
        opened: 0,
        rank: 3,
        height: 2,
    },
    Entry {
        form: Form::Sequence(204, 26),
        nullable: false,
        first: 549755813888,
        goes_on: 0,
        opened: 0,
        rank: 1,
        height: 3,
    },
    Entry {
        form: Form::Terminal(39),
        nullable: false,
        first: 549755813888,
        goes_on: 0,
        opened: 0,
        rank: 0,
        height: 0,
    },
    Entry {
        form: Form::Choice(206, 208),
        nullable: false,
        first: 3298534883328,
        goes_on: 0,
        opened: 0,
        rank: 2,
        height: 1,
    },
    Entry {
        form: Form::Sequence(207, 26),
        nullable: false,
        first: 1099511627776,
        goes_on: 0,
        opened: 0,
        rank: 1,
        height: 3,
    },
    Entry {
        form: Form::Terminal(40),
        nullable: false,
        first: 1099511627776,
        goes_on: 0,
        opened: 0,
        rank: 0,
        height: 0,
    },
    Entry {
        form: Form::Terminal(41),
        nullable: false,
        first: 2199023255552,
        goes_on: 0,
        opened: 0,
        rank: 0,
        height: 0,
    },
    Entry {
        form: Form::Repeat(22),
        nullable: true,
        first: 30786327805952,
        goes_on: 30786327805952,
        opened: 0,
        rank: 6,
        height: 0,
    },
    Entry {
        form: Form::Choice(102, 211),
        nullable: false,
        first: 30786325708800,
        goes_on: 0,
        opened: 0,
        rank: 4,
        height: 4,
    },
    Entry {
        form: Form::Choice(212, 214),
        nullable: false,
        first: 30786325577728,
        goes_on: 0,
        opened: 0,
        rank: 3,
        height: 4,
    },
    Entry {
        form: Form::Sequence(213, 26),
        nullable: false,
        first: 4398046511104,
        goes_on: 0,
        opened: 0,
        rank: 1,
        height: 3,
    },
    Entry {
        form: Form::Terminal(42),
        nullable: false,
        first: 4398046511104,
        goes_on: 0,
        opened: 0,
        rank: 0,
        height: 0,
    },
    Entry {
        form: Form::Choice(215, 217),
        nullable: false,
        first: 26388279066624,
        goes_on: 0,
        opened: 0,
        rank: 2,
        height: 6,
    },
    Entry {
        form: Form::Sequence(216, 23),
        nullable: false,
        first: 8796093022208,
        goes_on: 0,
        opened: 0,
        rank: 1,
        height: 5,
    },
    Entry {
        form: Form::Terminal(43),
        nullable: false,
        first: 8796093022208,
        goes_on: 0,
        opened: 0,
        rank: 0,
        height: 0,
    },
    Entry {
        form: Form::Sequence(218, 23),
        nullable: false,
        first: 17592186044416,
        goes_on: 0,
        opened: 0,
        rank: 1,
        height: 5,
    },
    Entry {
        form: Form::Terminal(44),
        nullable: false,
        first: 17592186044416,
        goes_on: 0,
        opened: 0,
        rank: 0,
        height: 0,
    },
    Entry {
        form: Form::Sequence(26, 220),
        nullable: false,
        first: 1152921504606846975,
        goes_on: 0,
        opened: 0,
        rank: 13,
        height: 3,
    },
    Entry {
        form: Form::Sequence(221, 113),
        nullable: false,
        first: 16888498602639360,
        goes_on: 0,
        opened: 0,
        rank: 4,
        height: 2,
    },
    Entry {
        form: Form::Choice(200, 222),
        nullable: false,
        first: 16888498602639360,
        goes_on: 0,
        opened: 0,
        rank: 3,
        height: 1,
    },
    Entry {
        form: Form::Choice(201, 223),
        nullable: false,
        first: 15762598695796736,
        goes_on: 0,
        opened: 0,
        rank: 2,
        height: 1,
    },
    Entry {
        form: Form::Choice(224, 225),
        nullable: false,
        first: 13510798882111488,
        goes_on: 0,
        opened: 0,
        rank: 1,
        height: 1,
    },
    Entry {
        form: Form::Terminal(52),
        nullable: false,
        first: 4503599627370496,
        goes_on: 0,
        opened: 0,
        rank: 0,
        height: 0,
    },
    Entry {
        form: Form::Terminal(53),
        nullable: false,
        first: 9007199254740992,
        goes_on: 0,
        opened: 0,
        rank: 0,
        height: 0,
    },
    Entry {
        form: Form::Sequence(26, 112),
        nullable: false,
        first: 1152921504606846975,
        goes_on: 0,
        opened: 0,
        rank: 13,
        height: 4,
    },
    Entry {
        form: Form::Sequence(109, 228),
        nullable: false,
        first: 576460752303423488,
        goes_on: 0,
        opened: 0,
        rank: 1,
        height: 2,
    },
    Entry {
        form: Form::Sequence(229, 113),
        nullable: false,
        first: 2305843009213693951,
        goes_on: 0,
        opened: 0,
        rank: 14,
        height: 1,
    },
    Entry {
        form: Form::Repeat(26),
        nullable: true,
        first: 1152921504606846975,
        goes_on: 1152921504606846975,
        opened: 0,
        rank: 13,
        height: 0,
    },
    Entry {
        form: Form::Sequence(109, 231),
        nullable: false,
        first: 576460752303423488,
        goes_on: 0,
        opened: 0,
        rank: 1,
        height: 3,
    },
    Entry {
        form: Form::Sequence(29, 113),
        nullable: false,
        first: 576460752303423487,
        goes_on: 0,
        opened: 0,
        rank: 12,
        height: 2,
    },
    Entry {
        form: Form::Sequence(95, 113),
        nullable: false,
        first: 2305843009213693951,
        goes_on: 0,
        opened: 0,
        rank: 14,
        height: 1,
    },
    Entry {
        form: Form::Terminal(57),
        nullable: false,
        first: 144115188075855872,
        goes_on: 0,
        opened: 0,
        rank: 0,
        height: 0,
    },
    Entry {
        form: Form::Choice(235, 236),
        nullable: false,
        first: 432345564227567615,
        goes_on: 0,
        opened: 0,
        rank: 10,
        height: 1,
    },
    Entry {
        form: Form::Terminal(58),
        nullable: false,
        first: 288230376151711744,
        goes_on: 0,
        opened: 0,
        rank: 0,
        height: 0,
    },
    Entry {
        form: Form::Choice(237, 252),
        nullable: false,
        first: 144115188075855871,
        goes_on: 0,
        opened: 0,
        rank: 9,
        height: 3,
    },
    Entry {
        form: Form::Choice(238, 241),
        nullable: false,
        first: 65535,
        goes_on: 0,
        opened: 0,
        rank: 6,
        height: 2,
    },
    Entry {
        form: Form::Choice(35, 239),
        nullable: false,
        first: 15,
        goes_on: 0,
        opened: 0,
        rank: 3,
        height: 1,
    },
    Entry {
        form: Form::Choice(38, 240),
        nullable: false,
        first: 14,
        goes_on: 0,
        opened: 0,
        rank: 2,
        height: 1,
    },
    Entry {
        form: Form::Choice(41, 45),
        nullable: false,
        first: 12,
        goes_on: 0,
        opened: 0,
        rank: 1,
        height: 1,
    },
    Entry {
        form: Form::Choice(242, 245),
        nullable: false,
        first: 65520,
        goes_on: 0,
        opened: 0,
        rank: 5,
        height: 2,
    },
    Entry {
        form: Form::Choice(49, 243),
        nullable: false,
        first: 240,
        goes_on: 0,
        opened: 0,
        rank: 3,
        height: 1,
    },
    Entry {
        form: Form::Choice(53, 244),
        nullable: false,
        first: 224,
        goes_on: 0,
        opened: 0,
        rank: 2,
        height: 1,
    },
    Entry {
        form: Form::Choice(59, 63),
        nullable: false,
        first: 192,
        goes_on: 0,
        opened: 0,
        rank: 1,
        height: 1,
    },
    Entry {
        form: Form::Choice(246, 249),
        nullable: false,
        first: 65280,
        goes_on: 0,
        opened: 0,
        rank: 4,
        height: 2,
    },
    Entry {
        form: Form::Choice(67, 247),
        nullable: false,
        first: 3840,
        goes_on: 0,
        opened: 0,
        rank: 3,
        height: 1,
    },
    Entry {
        form: Form::Choice(71, 248),
        nullable: false,
        first: 3584,
        goes_on: 0,
        opened: 0,
        rank: 2,
        height: 1,
    },
    Entry {
        form: Form::Choice(76, 82),
        nullable: false,
        first: 3072,
        goes_on: 0,
        opened: 0,
        rank: 1,
        height: 1,
    },
    Entry {
        form: Form::Choice(86, 250),
        nullable: false,
        first: 61440,
        goes_on: 0,
        opened: 0,
        rank: 3,
        height: 1,
    },
    Entry {
        form: Form::Choice(90, 251),
        nullable: false,
        first: 57344,
        goes_on: 0,
        opened: 0,
        rank: 2,
        height: 1,
    },
    Entry {
        form: Form::Choice(94, 98),
        nullable: false,
        first: 49152,
        goes_on: 0,
        opened: 0,
        rank: 1,
        height: 1,
    },
    Entry {
        form: Form::Choice(253, 268),
        nullable: false,
        first: 144115188075790336,
        goes_on: 0,
        opened: 0,
        rank: 8,
        height: 3,
    },
    Entry {
        form: Form::Choice(254, 257),
        nullable: false,
        first: 4294901760,
        goes_on: 0,
        opened: 0,
        rank: 6,
        height: 2,
    },
    Entry {
        form: Form::Choice(100, 255),
        nullable: false,
        first: 983040,
        goes_on: 0,
        opened: 0,
        rank: 3,
        height: 1,
    },
    Entry {
        form: Form::Choice(103, 256),
        nullable: false,
        first: 917504,
        goes_on: 0,
        opened: 0,
        rank: 2,
        height: 1,
    },
    Entry {
        form: Form::Choice(105, 107),
        nullable: false,
        first: 786432,
        goes_on: 0,
        opened: 0,
        rank: 1,
        height: 1,
    },
    Entry {
        form: Form::Choice(258, 261),
        nullable: false,
        first: 4293918720,
        goes_on: 0,
        opened: 0,
        rank: 5,
        height: 2,
    },
    Entry {
        form: Form::Choice(116, 259),
        nullable: false,
        first: 15728640,
        goes_on: 0,
        opened: 0,
        rank: 3,
        height: 1,
    },
    Entry {
        form: Form::Choice(121, 260),
        nullable: false,
        first: 14680064,
        goes_on: 0,
        opened: 0,
        rank: 2,
        height: 1,
    },
    Entry {
        form: Form::Choice(123, 56),
        nullable: false,
        first: 12582912,
        goes_on: 0,
        opened: 0,
        rank: 1,
        height: 1,
    },
    Entry {
        form: Form::Choice(262, 265),
        nullable: false,
        first: 4278190080,
        goes_on: 0,
        opened: 0,
        rank: 4,
        height: 2,
    },
    Entry {
        form: Form::Choice(125, 263),
        nullable: false,
        first: 251658240,
        goes_on: 0,
        opened: 0,
        rank: 3,
        height: 1,
    },
    Entry {
        form: Form::Choice(146, 264),
        nullable: false,
        first: 234881024,
        goes_on: 0,
        opened: 0,
        rank: 2,
        height: 1,
    },
    Entry {
        form: Form::Choice(148, 152),
        nullable: false,
        first: 201326592,
        goes_on: 0,
        opened: 0,
        rank: 1,
        height: 1,
    },
    Entry {
        form: Form::Choice(155, 266),
        nullable: false,
        first: 4026531840,
        goes_on: 0,
        opened: 0,
        rank: 3,
        height: 1,
    },
    Entry {
        form: Form::Choice(158, 267),
        nullable: false,
        first: 3758096384,
        goes_on: 0,
        opened: 0,
        rank: 2,
        height: 1,
    },
    Entry {
        form: Form::Choice(161, 167),
        nullable: false,
        first: 3221225472,
        goes_on: 0,
        opened: 0,
        rank: 1,
        height: 1,
    },
    Entry {
        form: Form::Choice(269, 284),
        nullable: false,
        first: 144115183780888576,
        goes_on: 0,
        opened: 0,
        rank: 7,
        height: 3,
    },
    Entry {
        form: Form::Choice(270, 273),
        nullable: false,
        first: 281470681743360,
        goes_on: 0,
        opened: 0,
        rank: 6,
        height: 2,
    },
    Entry {
        form: Form::Choice(169, 271),
        nullable: false,
        first: 64424509440,
        goes_on: 0,
        opened: 0,
        rank: 3,
        height: 1,
    },
    Entry {
        form: Form::Choice(79, 272),
        nullable: false,
        first: 60129542144,
        goes_on: 0,
        opened: 0,
        rank: 2,
        height: 1,
    },
    Entry {
        form: Form::Choice(178, 183),
        nullable: false,
        first: 51539607552,
        goes_on: 0,
        opened: 0,
        rank: 1,
        height: 1,
    },
    Entry {
        form: Form::Choice(274, 277),
        nullable: false,
        first: 281406257233920,
        goes_on: 0,
        opened: 0,
        rank: 5,
        height: 2,
    },
    Entry {
        form: Form::Choice(192, 275),
        nullable: false,
        first: 1030792151040,
        goes_on: 0,
        opened: 0,
        rank: 3,
        height: 1,
    },
    Entry {
        form: Form::Choice(195, 276),
        nullable: false,
        first: 962072674304,
        goes_on: 0,
        opened: 0,
        rank: 2,
        height: 1,
    },
    Entry {
        form: Form::Choice(198, 204),
        nullable: false,
        first: 824633720832,
        goes_on: 0,
        opened: 0,
        rank: 1,
        height: 1,
    },
    Entry {
        form: Form::Choice(278, 281),
        nullable: false,
        first: 280375465082880,
        goes_on: 0,
        opened: 0,
        rank: 4,
        height: 2,
    },
    Entry {
        form: Form::Choice(207, 279),
        nullable: false,
        first: 16492674416640,
        goes_on: 0,
        opened: 0,
        rank: 3,
        height: 1,
    },
    Entry {
        form: Form::Choice(208, 280),
        nullable: false,
        first: 15393162788864,
        goes_on: 0,
        opened: 0,
        rank: 2,
        height: 1,
    },
    Entry {
        form: Form::Choice(213, 216),
        nullable: false,
        first: 13194139533312,
        goes_on: 0,
        opened: 0,
        rank: 1,
        height: 1,
    },
    Entry {
        form: Form::Choice(218, 282),
        nullable: false,
        first: 263882790666240,
        goes_on: 0,
        opened: 0,
        rank: 3,
        height: 1,
    },
    Entry {
        form: Form::Choice(118, 283),
        nullable: false,
        first: 246290604621824,
        goes_on: 0,
        opened: 0,
        rank: 2,
        height: 1,
    },
    Entry {
        form: Form::Choice(119, 185),
        nullable: false,
        first: 211106232532992,
        goes_on: 0,
        opened: 0,
        rank: 1,
        height: 1,
    },
    Entry {
        form: Form::Choice(285, 287),
        nullable: false,
        first: 143833713099145216,
        goes_on: 0,
        opened: 0,
        rank: 5,
        height: 2,
    },
    Entry {
        form: Form::Choice(187, 286),
        nullable: false,
        first: 4222124650659840,
        goes_on: 0,
        opened: 0,
        rank: 3,
        height: 1,
    },
    Entry {
        form: Form::Choice(188, 199),
        nullable: false,
        first: 3940649673949184,
        goes_on: 0,
        opened: 0,
        rank: 2,
        height: 1,
    },
    Entry {
        form: Form::Choice(288, 111),
        nullable: false,
        first: 139611588448485376,
        goes_on: 0,
        opened: 0,
        rank: 4,
        height: 1,
    },
    Entry {
        form: Form::Choice(224, 289),
        nullable: false,
        first: 67553994410557440,
        goes_on: 0,
        opened: 0,
        rank: 3,
        height: 1,
    },
    Entry {
        form: Form::Choice(225, 290),
        nullable: false,
        first: 63050394783186944,
        goes_on: 0,
        opened: 0,
        rank: 2,
        height: 1,
    },
    Entry {
        form: Form::Choice(129, 136),
        nullable: false,
        first: 54043195528445952,
        goes_on: 0,
        opened: 0,
        rank: 1,
        height: 1,
    },
];
