//! The table of the grammar in `VerilogGrammar.antt`: written by `tools/grammar.py`.

use pe_grammar::{Entry, Form};

// The terminals.
pub const MODULE: u16 = 0;

pub const ENDMODULE: u16 = 1;

pub const PARAMETER: u16 = 2;

pub const LOCALPARAM: u16 = 3;

pub const WIRE: u16 = 4;

pub const REG: u16 = 5;

pub const INPUT: u16 = 6;

pub const OUTPUT: u16 = 7;

pub const INOUT: u16 = 8;

pub const ASSIGN: u16 = 9;

pub const ALWAYS: u16 = 10;

pub const POSEDGE: u16 = 11;

pub const NEGEDGE: u16 = 12;

pub const OR: u16 = 13;

pub const BEGIN: u16 = 14;

pub const END: u16 = 15;

pub const IF: u16 = 16;

pub const ELSE: u16 = 17;

pub const CASE: u16 = 18;

pub const CASEZ: u16 = 19;

pub const ENDCASE: u16 = 20;

pub const DEFAULT: u16 = 21;

pub const HASH: u16 = 22;

pub const OPEN: u16 = 23;

pub const CLOSE: u16 = 24;

pub const COMMA: u16 = 25;

pub const SEMI: u16 = 26;

pub const DOT: u16 = 27;

pub const EQUALS: u16 = 28;

pub const LBRACKET: u16 = 29;

pub const RBRACKET: u16 = 30;

pub const COLON: u16 = 31;

pub const AT: u16 = 32;

pub const STAR: u16 = 33;

pub const LBRACE: u16 = 34;

pub const RBRACE: u16 = 35;

pub const QUESTION: u16 = 36;

pub const BANG: u16 = 37;

pub const TILDE: u16 = 38;

pub const AND: u16 = 39;

pub const NAND: u16 = 40;

pub const BAR: u16 = 41;

pub const NOR: u16 = 42;

pub const CARET: u16 = 43;

pub const XNOR: u16 = 44;

pub const PLUS: u16 = 45;

pub const MINUS: u16 = 46;

pub const LEFT: u16 = 47;

pub const RIGHT: u16 = 48;

pub const LESS: u16 = 49;

pub const LESS_EQUAL: u16 = 50;

pub const GREATER: u16 = 51;

pub const GREATER_EQUAL: u16 = 52;

pub const EQUAL: u16 = 53;

pub const NOT_EQUAL: u16 = 54;

pub const AND_AND: u16 = 55;

pub const BAR_BAR: u16 = 56;

pub const NAME: u16 = 57;

pub const NUMBER: u16 = 58;

pub const WILD: u16 = 59;

pub const OTHER: u16 = 60;

// The places.
pub const AT_RTL: u16 = 0;

pub const AT_NETLIST: u16 = 1;

pub const AT_MODULE: u16 = 2;

pub const AT_TOKEN_MODULE: u16 = 134;

pub const AT_MODULE_2: u16 = 135;

pub const AT_MODULE_3: u16 = 136;

pub const AT_MODULE_PART_3: u16 = 137;

pub const AT_TOKEN_ENDMODULE: u16 = 138;

pub const AT_NET_MODULE: u16 = 3;

pub const AT_NET_MODULE_2: u16 = 139;

pub const AT_NET_MODULE_3: u16 = 140;

pub const AT_NET_MODULE_PART_3: u16 = 141;

pub const AT_HEADING: u16 = 4;

pub const AT_TOKEN_NAME: u16 = 142;

pub const AT_HEADING_2: u16 = 143;

pub const AT_HEADING_PART_2: u16 = 144;

pub const AT_HEADING_3: u16 = 146;

pub const AT_HEADING_PART_3: u16 = 147;

pub const AT_TOKEN_SEMI: u16 = 148;

pub const AT_PARAMETER_HEAD: u16 = 5;

pub const AT_TOKEN_HASH: u16 = 149;

pub const AT_PARAMETER_HEAD_2: u16 = 150;

pub const AT_TOKEN_OPEN: u16 = 151;

pub const AT_PARAMETER_HEAD_3: u16 = 152;

pub const AT_TOKEN_CLOSE: u16 = 153;

pub const AT_HEAD_PARAMETERS: u16 = 6;

pub const AT_HEAD_PARAMETERS_PART_2: u16 = 154;

pub const AT_HEAD_PARAMETERS_PART_2_EACH: u16 = 155;

pub const AT_TOKEN_COMMA: u16 = 156;

pub const AT_HEAD_PARAMETER: u16 = 7;

pub const AT_HEAD_PARAMETER_PART_1: u16 = 157;

pub const AT_TOKEN_PARAMETER: u16 = 158;

pub const AT_HEAD_PARAMETER_2: u16 = 159;

pub const AT_HEAD_PARAMETER_PART_2: u16 = 160;

pub const AT_SETTING: u16 = 8;

pub const AT_SETTING_2: u16 = 161;

pub const AT_TOKEN_EQUALS: u16 = 162;

pub const AT_PORT_HEAD: u16 = 9;

pub const AT_PORT_HEAD_2: u16 = 163;

pub const AT_PORT_HEAD_PART_2: u16 = 164;

pub const AT_PORTS: u16 = 10;

pub const AT_NAMES: u16 = 11;

pub const AT_NAMES_PART_2: u16 = 165;

pub const AT_NAMES_PART_2_EACH: u16 = 166;

pub const AT_HEAD_PORTS: u16 = 12;

pub const AT_HEAD_PORTS_PART_2: u16 = 167;

pub const AT_HEAD_PORTS_PART_2_EACH: u16 = 168;

pub const AT_HEAD_PORT: u16 = 13;

pub const AT_PORT: u16 = 14;

pub const AT_PORT_2: u16 = 169;

pub const AT_PORT_PART_2: u16 = 170;

pub const AT_PORT_PART_2_PART_1: u16 = 171;

pub const AT_TOKEN_WIRE: u16 = 172;

pub const AT_TOKEN_REG: u16 = 173;

pub const AT_PORT_3: u16 = 174;

pub const AT_PORT_PART_3: u16 = 160;

pub const AT_DIRECTION: u16 = 15;

pub const AT_TOKEN_INPUT: u16 = 175;

pub const AT_DIRECTION_2: u16 = 176;

pub const AT_TOKEN_OUTPUT: u16 = 177;

pub const AT_TOKEN_INOUT: u16 = 178;

pub const AT_RANGE: u16 = 16;

pub const AT_TOKEN_LBRACKET: u16 = 179;

pub const AT_RANGE_2: u16 = 180;

pub const AT_TOKEN_RBRACKET: u16 = 181;

pub const AT_ITEM: u16 = 17;

pub const AT_ITEM_2: u16 = 182;

pub const AT_ITEM_3: u16 = 183;

pub const AT_REGS: u16 = 18;

pub const AT_REGS_2: u16 = 184;

pub const AT_REGS_PART_2: u16 = 160;

pub const AT_REGS_3: u16 = 185;

pub const AT_PARAMETERS: u16 = 19;

pub const AT_PARAMETERS_PART_1: u16 = 186;

pub const AT_TOKEN_LOCALPARAM: u16 = 187;

pub const AT_PARAMETERS_2: u16 = 188;

pub const AT_PARAMETERS_PART_2: u16 = 160;

pub const AT_PARAMETERS_3: u16 = 189;

pub const AT_SETTINGS: u16 = 20;

pub const AT_SETTINGS_PART_2: u16 = 190;

pub const AT_SETTINGS_PART_2_EACH: u16 = 191;

pub const AT_PORT_ITEM: u16 = 21;

pub const AT_PORT_ITEM_2: u16 = 192;

pub const AT_PORT_ITEM_PART_2: u16 = 165;

pub const AT_PORT_ITEM_PART_2_EACH: u16 = 166;

pub const AT_PARAMETER_PINS: u16 = 22;

pub const AT_PARAMETER_PINS_2: u16 = 193;

pub const AT_PARAMETER_PINS_3: u16 = 194;

pub const AT_ALWAYS: u16 = 23;

pub const AT_TOKEN_ALWAYS: u16 = 195;

pub const AT_ALWAYS_2: u16 = 196;

pub const AT_TOKEN_AT: u16 = 197;

pub const AT_ALWAYS_3: u16 = 198;

pub const AT_EVENTS: u16 = 24;

pub const AT_TOKEN_STAR: u16 = 199;

pub const AT_EVENTS_PART_2: u16 = 200;

pub const AT_EVENTS_PART_2_2: u16 = 201;

pub const AT_LISTENED: u16 = 25;

pub const AT_EVENT_LIST: u16 = 26;

pub const AT_EVENT_LIST_PART_2: u16 = 202;

pub const AT_EVENT_LIST_PART_2_EACH: u16 = 203;

pub const AT_EVENT_LIST_PART_2_EACH_PART_1: u16 = 204;

pub const AT_TOKEN_OR: u16 = 205;

pub const AT_EVENT: u16 = 27;

pub const AT_EVENT_PART_1: u16 = 206;

pub const AT_EVENT_PART_1_PART_1: u16 = 207;

pub const AT_TOKEN_POSEDGE: u16 = 208;

pub const AT_TOKEN_NEGEDGE: u16 = 209;

pub const AT_STATEMENT: u16 = 28;

pub const AT_STATEMENT_2: u16 = 210;

pub const AT_STATEMENT_3: u16 = 211;

pub const AT_STATEMENT_4: u16 = 212;

pub const AT_STATEMENT_5: u16 = 213;

pub const AT_BLOCK: u16 = 29;

pub const AT_TOKEN_BEGIN: u16 = 214;

pub const AT_BLOCK_2: u16 = 215;

pub const AT_BLOCK_PART_2: u16 = 216;

pub const AT_BLOCK_PART_2_PART_1: u16 = 217;

pub const AT_TOKEN_COLON: u16 = 218;

pub const AT_BLOCK_3: u16 = 219;

pub const AT_BLOCK_PART_3: u16 = 220;

pub const AT_TOKEN_END: u16 = 221;

pub const AT_TEST: u16 = 30;

pub const AT_TOKEN_IF: u16 = 222;

pub const AT_TEST_2: u16 = 223;

pub const AT_TEST_3: u16 = 224;

pub const AT_OTHERWISE: u16 = 31;

pub const AT_CASES: u16 = 32;

pub const AT_TOKEN_CASE: u16 = 225;

pub const AT_CASES_2: u16 = 226;

pub const AT_CASES_3: u16 = 227;

pub const AT_TOKEN_ENDCASE: u16 = 228;

pub const AT_ARMS: u16 = 33;

pub const AT_ARMS_PART_2: u16 = 229;

pub const AT_ARM: u16 = 34;

pub const AT_LABELLED: u16 = 35;

pub const AT_LABELLED_2: u16 = 230;

pub const AT_DEFAULT: u16 = 36;

pub const AT_TOKEN_DEFAULT: u16 = 231;

pub const AT_DEFAULT_2: u16 = 232;

pub const AT_DEFAULT_PART_2: u16 = 233;

pub const AT_WILD_CASES: u16 = 37;

pub const AT_TOKEN_CASEZ: u16 = 234;

pub const AT_WILD_CASES_2: u16 = 235;

pub const AT_WILD_CASES_3: u16 = 236;

pub const AT_WILD_ARMS: u16 = 38;

pub const AT_WILD_ARMS_PART_2: u16 = 237;

pub const AT_WILD_ARM: u16 = 39;

pub const AT_WILD_LABELLED: u16 = 40;

pub const AT_WILD_LABELLED_2: u16 = 230;

pub const AT_ASSIGNMENT: u16 = 41;

pub const AT_ASSIGNMENT_2: u16 = 238;

pub const AT_ASSIGNMENT_PART_2: u16 = 239;

pub const AT_TOKEN_LESS_EQUAL: u16 = 240;

pub const AT_ASSIGNMENT_3: u16 = 241;

pub const AT_TARGET: u16 = 42;

pub const AT_TARGET_JOIN: u16 = 43;

pub const AT_TOKEN_LBRACE: u16 = 242;

pub const AT_TARGET_JOIN_2: u16 = 243;

pub const AT_TOKEN_RBRACE: u16 = 244;

pub const AT_TARGETS: u16 = 44;

pub const AT_TARGETS_PART_2: u16 = 245;

pub const AT_TARGETS_PART_2_EACH: u16 = 246;

pub const AT_NAMED_TARGET: u16 = 45;

pub const AT_NAMED_TARGET_PART_2: u16 = 247;

pub const AT_SIGN: u16 = 46;

pub const AT_TOKEN_BANG: u16 = 248;

pub const AT_SIGN_2: u16 = 249;

pub const AT_TOKEN_TILDE: u16 = 250;

pub const AT_SIGN_3: u16 = 251;

pub const AT_TOKEN_AND: u16 = 252;

pub const AT_SIGN_4: u16 = 253;

pub const AT_TOKEN_NAND: u16 = 254;

pub const AT_SIGN_5: u16 = 255;

pub const AT_TOKEN_BAR: u16 = 256;

pub const AT_SIGN_6: u16 = 257;

pub const AT_TOKEN_NOR: u16 = 258;

pub const AT_SIGN_7: u16 = 259;

pub const AT_TOKEN_CARET: u16 = 260;

pub const AT_TOKEN_XNOR: u16 = 261;

pub const AT_EX: u16 = 47;

pub const AT_EX_PART_2: u16 = 262;

pub const AT_EX_PART_2_PART_1: u16 = 263;

pub const AT_TOKEN_QUESTION: u16 = 264;

pub const AT_ANY: u16 = 48;

pub const AT_ANY_PART_2: u16 = 265;

pub const AT_ANY_PART_2_EACH: u16 = 266;

pub const AT_TOKEN_BAR_BAR: u16 = 267;

pub const AT_ALL: u16 = 49;

pub const AT_ALL_PART_2: u16 = 268;

pub const AT_ALL_PART_2_EACH: u16 = 269;

pub const AT_TOKEN_AND_AND: u16 = 270;

pub const AT_UNION: u16 = 50;

pub const AT_UNION_PART_2: u16 = 271;

pub const AT_UNION_PART_2_EACH: u16 = 272;

pub const AT_DIFFERENCE: u16 = 51;

pub const AT_DIFFERENCE_PART_2: u16 = 273;

pub const AT_DIFFERENCE_PART_2_EACH: u16 = 274;

pub const AT_DIFFERENCE_PART_2_EACH_PART_1: u16 = 259;

pub const AT_PRODUCT: u16 = 52;

pub const AT_PRODUCT_PART_2: u16 = 275;

pub const AT_PRODUCT_PART_2_EACH: u16 = 276;

pub const AT_EQUALITY: u16 = 53;

pub const AT_EQUALITY_PART_2: u16 = 277;

pub const AT_EQUALITY_PART_2_EACH: u16 = 278;

pub const AT_EQUALITY_PART_2_EACH_PART_1: u16 = 279;

pub const AT_TOKEN_EQUAL: u16 = 280;

pub const AT_TOKEN_NOT_EQUAL: u16 = 281;

pub const AT_ORDER: u16 = 54;

pub const AT_ORDER_PART_2: u16 = 282;

pub const AT_ORDER_PART_2_EACH: u16 = 283;

pub const AT_ORDER_PART_2_EACH_PART_1: u16 = 284;

pub const AT_TOKEN_LESS: u16 = 285;

pub const AT_ORDER_PART_2_EACH_PART_1_2: u16 = 286;

pub const AT_ORDER_PART_2_EACH_PART_1_3: u16 = 287;

pub const AT_TOKEN_GREATER: u16 = 288;

pub const AT_TOKEN_GREATER_EQUAL: u16 = 289;

pub const AT_SHIFT: u16 = 55;

pub const AT_SHIFT_PART_2: u16 = 290;

pub const AT_SHIFT_PART_2_EACH: u16 = 291;

pub const AT_SHIFT_PART_2_EACH_PART_1: u16 = 292;

pub const AT_TOKEN_LEFT: u16 = 293;

pub const AT_TOKEN_RIGHT: u16 = 294;

pub const AT_SUM: u16 = 56;

pub const AT_SUM_PART_2: u16 = 295;

pub const AT_SUM_PART_2_EACH: u16 = 296;

pub const AT_SUM_PART_2_EACH_PART_1: u16 = 297;

pub const AT_TOKEN_PLUS: u16 = 298;

pub const AT_TOKEN_MINUS: u16 = 299;

pub const AT_UNARY: u16 = 57;

pub const AT_UNARY_PART_1: u16 = 300;

pub const AT_PRIMARY: u16 = 58;

pub const AT_PRIMARY_2: u16 = 301;

pub const AT_GROUP: u16 = 59;

pub const AT_GROUP_2: u16 = 302;

pub const AT_BRACES: u16 = 60;

pub const AT_BRACES_2: u16 = 303;

pub const AT_BRACES_3: u16 = 304;

pub const AT_BRACES_PART_3: u16 = 305;

pub const AT_BRACES_PART_3_PART_1: u16 = 306;

pub const AT_BRACES_PART_3_PART_1_EACH: u16 = 307;

pub const AT_INNER: u16 = 61;

pub const AT_INNER_2: u16 = 308;

pub const AT_LIST: u16 = 62;

pub const AT_LIST_PART_2: u16 = 306;

pub const AT_LIST_PART_2_EACH: u16 = 307;

pub const AT_SIDES: u16 = 63;

pub const AT_SIDES_2: u16 = 309;

pub const AT_SELECT: u16 = 64;

pub const AT_SELECT_2: u16 = 310;

pub const AT_SELECT_3: u16 = 311;

pub const AT_SELECT_PART_3: u16 = 312;

pub const AT_SELECT_PART_3_PART_1: u16 = 309;

pub const AT_OPERAND: u16 = 65;

pub const AT_TOKEN_NUMBER: u16 = 313;

pub const AT_OPERAND_PART_2: u16 = 314;

pub const AT_OPERAND_PART_2_PART_2: u16 = 247;

pub const AT_LABEL_EX: u16 = 66;

pub const AT_LABEL_EX_PART_2: u16 = 315;

pub const AT_LABEL_EX_PART_2_PART_1: u16 = 316;

pub const AT_LABEL_ANY: u16 = 67;

pub const AT_LABEL_ANY_PART_2: u16 = 317;

pub const AT_LABEL_ANY_PART_2_EACH: u16 = 318;

pub const AT_LABEL_ALL: u16 = 68;

pub const AT_LABEL_ALL_PART_2: u16 = 319;

pub const AT_LABEL_ALL_PART_2_EACH: u16 = 320;

pub const AT_LABEL_UNION: u16 = 69;

pub const AT_LABEL_UNION_PART_2: u16 = 321;

pub const AT_LABEL_UNION_PART_2_EACH: u16 = 322;

pub const AT_LABEL_DIFFERENCE: u16 = 70;

pub const AT_LABEL_DIFFERENCE_PART_2: u16 = 323;

pub const AT_LABEL_DIFFERENCE_PART_2_EACH: u16 = 324;

pub const AT_LABEL_DIFFERENCE_PART_2_EACH_PART_1: u16 = 259;

pub const AT_LABEL_PRODUCT: u16 = 71;

pub const AT_LABEL_PRODUCT_PART_2: u16 = 325;

pub const AT_LABEL_PRODUCT_PART_2_EACH: u16 = 326;

pub const AT_LABEL_EQUALITY: u16 = 72;

pub const AT_LABEL_EQUALITY_PART_2: u16 = 327;

pub const AT_LABEL_EQUALITY_PART_2_EACH: u16 = 328;

pub const AT_LABEL_EQUALITY_PART_2_EACH_PART_1: u16 = 279;

pub const AT_LABEL_ORDER: u16 = 73;

pub const AT_LABEL_ORDER_PART_2: u16 = 329;

pub const AT_LABEL_ORDER_PART_2_EACH: u16 = 330;

pub const AT_LABEL_ORDER_PART_2_EACH_PART_1: u16 = 284;

pub const AT_LABEL_ORDER_PART_2_EACH_PART_1_2: u16 = 286;

pub const AT_LABEL_ORDER_PART_2_EACH_PART_1_3: u16 = 287;

pub const AT_LABEL_SHIFT: u16 = 74;

pub const AT_LABEL_SHIFT_PART_2: u16 = 331;

pub const AT_LABEL_SHIFT_PART_2_EACH: u16 = 332;

pub const AT_LABEL_SHIFT_PART_2_EACH_PART_1: u16 = 292;

pub const AT_LABEL_SUM: u16 = 75;

pub const AT_LABEL_SUM_PART_2: u16 = 333;

pub const AT_LABEL_SUM_PART_2_EACH: u16 = 334;

pub const AT_LABEL_SUM_PART_2_EACH_PART_1: u16 = 297;

pub const AT_LABEL_UNARY: u16 = 76;

pub const AT_LABEL_UNARY_PART_1: u16 = 335;

pub const AT_LABEL_PRIMARY: u16 = 77;

pub const AT_LABEL_PRIMARY_2: u16 = 336;

pub const AT_LABEL_GROUP: u16 = 78;

pub const AT_LABEL_GROUP_2: u16 = 337;

pub const AT_LABEL_BRACES: u16 = 79;

pub const AT_LABEL_BRACES_2: u16 = 338;

pub const AT_LABEL_BRACES_3: u16 = 339;

pub const AT_LABEL_BRACES_PART_3: u16 = 340;

pub const AT_LABEL_BRACES_PART_3_PART_1: u16 = 341;

pub const AT_LABEL_BRACES_PART_3_PART_1_EACH: u16 = 342;

pub const AT_LABEL_INNER: u16 = 80;

pub const AT_LABEL_INNER_2: u16 = 343;

pub const AT_LABEL_LIST: u16 = 81;

pub const AT_LABEL_LIST_PART_2: u16 = 341;

pub const AT_LABEL_LIST_PART_2_EACH: u16 = 342;

pub const AT_LABEL_SIDES: u16 = 82;

pub const AT_LABEL_SIDES_2: u16 = 344;

pub const AT_LABEL_SELECT: u16 = 83;

pub const AT_LABEL_SELECT_2: u16 = 345;

pub const AT_LABEL_SELECT_3: u16 = 346;

pub const AT_LABEL_SELECT_PART_3: u16 = 347;

pub const AT_LABEL_SELECT_PART_3_PART_1: u16 = 344;

pub const AT_LABEL_OPERAND: u16 = 84;

pub const AT_LABEL_OPERAND_PART_1: u16 = 348;

pub const AT_TOKEN_WILD: u16 = 349;

pub const AT_LABEL_OPERAND_PART_2: u16 = 350;

pub const AT_LABEL_OPERAND_PART_2_PART_2: u16 = 351;

pub const AT_CONSTANT_EX: u16 = 85;

pub const AT_CONSTANT_EX_PART_2: u16 = 352;

pub const AT_CONSTANT_EX_PART_2_PART_1: u16 = 353;

pub const AT_CONSTANT_ANY: u16 = 86;

pub const AT_CONSTANT_ANY_PART_2: u16 = 354;

pub const AT_CONSTANT_ANY_PART_2_EACH: u16 = 355;

pub const AT_CONSTANT_ALL: u16 = 87;

pub const AT_CONSTANT_ALL_PART_2: u16 = 356;

pub const AT_CONSTANT_ALL_PART_2_EACH: u16 = 357;

pub const AT_CONSTANT_UNION: u16 = 88;

pub const AT_CONSTANT_UNION_PART_2: u16 = 358;

pub const AT_CONSTANT_UNION_PART_2_EACH: u16 = 359;

pub const AT_CONSTANT_DIFFERENCE: u16 = 89;

pub const AT_CONSTANT_DIFFERENCE_PART_2: u16 = 360;

pub const AT_CONSTANT_DIFFERENCE_PART_2_EACH: u16 = 361;

pub const AT_CONSTANT_DIFFERENCE_PART_2_EACH_PART_1: u16 = 259;

pub const AT_CONSTANT_PRODUCT: u16 = 90;

pub const AT_CONSTANT_PRODUCT_PART_2: u16 = 362;

pub const AT_CONSTANT_PRODUCT_PART_2_EACH: u16 = 363;

pub const AT_CONSTANT_EQUALITY: u16 = 91;

pub const AT_CONSTANT_EQUALITY_PART_2: u16 = 364;

pub const AT_CONSTANT_EQUALITY_PART_2_EACH: u16 = 365;

pub const AT_CONSTANT_EQUALITY_PART_2_EACH_PART_1: u16 = 279;

pub const AT_CONSTANT_ORDER: u16 = 92;

pub const AT_CONSTANT_ORDER_PART_2: u16 = 366;

pub const AT_CONSTANT_ORDER_PART_2_EACH: u16 = 367;

pub const AT_CONSTANT_ORDER_PART_2_EACH_PART_1: u16 = 284;

pub const AT_CONSTANT_ORDER_PART_2_EACH_PART_1_2: u16 = 286;

pub const AT_CONSTANT_ORDER_PART_2_EACH_PART_1_3: u16 = 287;

pub const AT_CONSTANT_SHIFT: u16 = 93;

pub const AT_CONSTANT_SHIFT_PART_2: u16 = 368;

pub const AT_CONSTANT_SHIFT_PART_2_EACH: u16 = 369;

pub const AT_CONSTANT_SHIFT_PART_2_EACH_PART_1: u16 = 292;

pub const AT_CONSTANT_SUM: u16 = 94;

pub const AT_CONSTANT_SUM_PART_2: u16 = 370;

pub const AT_CONSTANT_SUM_PART_2_EACH: u16 = 371;

pub const AT_CONSTANT_SUM_PART_2_EACH_PART_1: u16 = 297;

pub const AT_CONSTANT_UNARY: u16 = 95;

pub const AT_CONSTANT_UNARY_PART_1: u16 = 372;

pub const AT_CONSTANT_PRIMARY: u16 = 96;

pub const AT_CONSTANT_PRIMARY_2: u16 = 373;

pub const AT_CONSTANT_GROUP: u16 = 97;

pub const AT_CONSTANT_GROUP_2: u16 = 374;

pub const AT_CONSTANT_BRACES: u16 = 98;

pub const AT_CONSTANT_BRACES_2: u16 = 375;

pub const AT_CONSTANT_BRACES_3: u16 = 376;

pub const AT_CONSTANT_BRACES_PART_3: u16 = 377;

pub const AT_CONSTANT_BRACES_PART_3_PART_1: u16 = 378;

pub const AT_CONSTANT_BRACES_PART_3_PART_1_EACH: u16 = 379;

pub const AT_CONSTANT_INNER: u16 = 99;

pub const AT_CONSTANT_INNER_2: u16 = 380;

pub const AT_CONSTANT_LIST: u16 = 100;

pub const AT_CONSTANT_LIST_PART_2: u16 = 378;

pub const AT_CONSTANT_LIST_PART_2_EACH: u16 = 379;

pub const AT_CONSTANT_SIDES: u16 = 101;

pub const AT_CONSTANT_SIDES_2: u16 = 381;

pub const AT_CONSTANT_SELECT: u16 = 102;

pub const AT_CONSTANT_SELECT_2: u16 = 382;

pub const AT_CONSTANT_SELECT_3: u16 = 383;

pub const AT_CONSTANT_SELECT_PART_3: u16 = 384;

pub const AT_CONSTANT_SELECT_PART_3_PART_1: u16 = 381;

pub const AT_CONSTANT_OPERAND: u16 = 103;

pub const AT_SIMPLE: u16 = 104;

pub const AT_SIMPLE_JOIN: u16 = 105;

pub const AT_SIMPLE_JOIN_2: u16 = 385;

pub const AT_SIMPLE_LIST: u16 = 106;

pub const AT_SIMPLE_LIST_PART_2: u16 = 386;

pub const AT_SIMPLE_LIST_PART_2_EACH: u16 = 387;

pub const AT_SIMPLE_OPERAND: u16 = 107;

pub const AT_SIMPLE_OPERAND_PART_2: u16 = 388;

pub const AT_SIMPLE_OPERAND_PART_2_PART_2: u16 = 389;

pub const AT_PLAIN: u16 = 108;

pub const AT_PLAIN_2: u16 = 390;

pub const AT_PLAIN_3: u16 = 391;

pub const AT_WIRES: u16 = 109;

pub const AT_WIRES_2: u16 = 392;

pub const AT_WIRES_PART_2: u16 = 160;

pub const AT_WIRES_3: u16 = 393;

pub const AT_WIRE_LIST: u16 = 110;

pub const AT_WIRE_LIST_PART_2: u16 = 394;

pub const AT_WIRE_LIST_PART_2_EACH: u16 = 395;

pub const AT_WIRE: u16 = 111;

pub const AT_WIRE_PART_2: u16 = 396;

pub const AT_WIRE_PART_2_PART_1: u16 = 161;

pub const AT_ASSIGNS: u16 = 112;

pub const AT_TOKEN_ASSIGN: u16 = 397;

pub const AT_ASSIGNS_2: u16 = 398;

pub const AT_ASSIGN_LIST: u16 = 113;

pub const AT_ASSIGN_LIST_PART_2: u16 = 399;

pub const AT_ASSIGN_LIST_PART_2_EACH: u16 = 400;

pub const AT_ASSIGN: u16 = 114;

pub const AT_ASSIGN_2: u16 = 161;

pub const AT_INSTANCES: u16 = 115;

pub const AT_INSTANCES_2: u16 = 401;

pub const AT_INSTANCES_PART_2: u16 = 402;

pub const AT_INSTANCES_3: u16 = 403;

pub const AT_INSTANCE_LIST: u16 = 116;

pub const AT_INSTANCE_LIST_PART_2: u16 = 404;

pub const AT_INSTANCE_LIST_PART_2_EACH: u16 = 405;

pub const AT_INSTANCE: u16 = 117;

pub const AT_INSTANCE_2: u16 = 406;

pub const AT_INSTANCE_3: u16 = 407;

pub const AT_INSTANCE_PART_3: u16 = 408;

pub const AT_PINS: u16 = 118;

pub const AT_NAMED_LIST: u16 = 119;

pub const AT_NAMED_LIST_PART_2: u16 = 409;

pub const AT_NAMED_LIST_PART_2_EACH: u16 = 410;

pub const AT_NAMED: u16 = 120;

pub const AT_TOKEN_DOT: u16 = 411;

pub const AT_NAMED_2: u16 = 412;

pub const AT_NAMED_3: u16 = 413;

pub const AT_NAMED_4: u16 = 414;

pub const AT_NAMED_PART_4: u16 = 415;

pub const AT_NET_PLAIN: u16 = 121;

pub const AT_NET_PLAIN_2: u16 = 416;

pub const AT_NET_PLAIN_3: u16 = 417;

pub const AT_NET_WIRES: u16 = 122;

pub const AT_NET_WIRES_2: u16 = 418;

pub const AT_NET_WIRES_PART_2: u16 = 160;

pub const AT_NET_WIRES_3: u16 = 419;

pub const AT_NET_WIRE_LIST: u16 = 123;

pub const AT_NET_WIRE_LIST_PART_2: u16 = 420;

pub const AT_NET_WIRE_LIST_PART_2_EACH: u16 = 421;

pub const AT_NET_WIRE: u16 = 124;

pub const AT_NET_WIRE_PART_2: u16 = 422;

pub const AT_NET_WIRE_PART_2_PART_1: u16 = 423;

pub const AT_NET_ASSIGNS: u16 = 125;

pub const AT_NET_ASSIGNS_2: u16 = 424;

pub const AT_NET_ASSIGN_LIST: u16 = 126;

pub const AT_NET_ASSIGN_LIST_PART_2: u16 = 425;

pub const AT_NET_ASSIGN_LIST_PART_2_EACH: u16 = 426;

pub const AT_NET_ASSIGN: u16 = 127;

pub const AT_NET_ASSIGN_2: u16 = 423;

pub const AT_NET_INSTANCES: u16 = 128;

pub const AT_NET_INSTANCES_2: u16 = 427;

pub const AT_NET_INSTANCES_PART_2: u16 = 402;

pub const AT_NET_INSTANCES_3: u16 = 428;

pub const AT_NET_INSTANCE_LIST: u16 = 129;

pub const AT_NET_INSTANCE_LIST_PART_2: u16 = 429;

pub const AT_NET_INSTANCE_LIST_PART_2_EACH: u16 = 430;

pub const AT_NET_INSTANCE: u16 = 130;

pub const AT_NET_INSTANCE_2: u16 = 431;

pub const AT_NET_INSTANCE_3: u16 = 432;

pub const AT_NET_INSTANCE_PART_3: u16 = 433;

pub const AT_NET_PINS: u16 = 131;

pub const AT_NET_NAMED_LIST: u16 = 132;

pub const AT_NET_NAMED_LIST_PART_2: u16 = 434;

pub const AT_NET_NAMED_LIST_PART_2_EACH: u16 = 435;

pub const AT_NET_NAMED: u16 = 133;

pub const AT_NET_NAMED_2: u16 = 436;

pub const AT_NET_NAMED_3: u16 = 437;

pub const AT_NET_NAMED_4: u16 = 438;

pub const AT_NET_NAMED_PART_4: u16 = 439;

pub static VERILOG: [Entry; 440] = [
    Entry {
        form: Form::Repeat(2),
        nullable: true,
        first: 1,
        goes_on: 1,
        opened: 0,
        rank: 2,
        height: 0,
    },
    Entry {
        form: Form::Repeat(3),
        nullable: true,
        first: 1,
        goes_on: 1,
        opened: 0,
        rank: 2,
        height: 0,
    },
    Entry {
        form: Form::Sequence(134, 135),
        nullable: false,
        first: 1,
        goes_on: 0,
        opened: 0,
        rank: 1,
        height: 6,
    },
    Entry {
        form: Form::Sequence(134, 139),
        nullable: false,
        first: 1,
        goes_on: 0,
        opened: 0,
        rank: 1,
        height: 6,
    },
    Entry {
        form: Form::Sequence(142, 143),
        nullable: false,
        first: 144115188075855872,
        goes_on: 0,
        opened: 0,
        rank: 1,
        height: 4,
    },
    Entry {
        form: Form::Sequence(149, 150),
        nullable: false,
        first: 4194304,
        goes_on: 0,
        opened: 0,
        rank: 1,
        height: 22,
    },
    Entry {
        form: Form::Sequence(7, 154),
        nullable: false,
        first: 144115188612726788,
        goes_on: 144109210051805184,
        opened: 0,
        rank: 5,
        height: 19,
    },
    Entry {
        form: Form::Sequence(157, 159),
        nullable: false,
        first: 144115188612726788,
        goes_on: 144109210018250752,
        opened: 0,
        rank: 4,
        height: 18,
    },
    Entry {
        form: Form::Sequence(142, 161),
        nullable: false,
        first: 144115188075855872,
        goes_on: 144109210018250752,
        opened: 0,
        rank: 1,
        height: 16,
    },
    Entry {
        form: Form::Sequence(151, 163),
        nullable: false,
        first: 8388608,
        goes_on: 0,
        opened: 0,
        rank: 1,
        height: 3,
    },
    Entry {
        form: Form::Choice(11, 12),
        nullable: false,
        first: 144115188075856320,
        goes_on: 33554432,
        opened: 0,
        rank: 5,
        height: 2,
    },
    Entry {
        form: Form::Sequence(142, 165),
        nullable: false,
        first: 144115188075855872,
        goes_on: 33554432,
        opened: 0,
        rank: 1,
        height: 1,
    },
    Entry {
        form: Form::Sequence(14, 167),
        nullable: false,
        first: 448,
        goes_on: 33554432,
        opened: 0,
        rank: 4,
        height: 5,
    },
    Entry {
        form: Form::Choice(14, 142),
        nullable: false,
        first: 144115188075856320,
        goes_on: 0,
        opened: 0,
        rank: 4,
        height: 1,
    },
    Entry {
        form: Form::Sequence(15, 169),
        nullable: false,
        first: 448,
        goes_on: 0,
        opened: 0,
        rank: 3,
        height: 4,
    },
    Entry {
        form: Form::Choice(175, 176),
        nullable: false,
        first: 448,
        goes_on: 0,
        opened: 0,
        rank: 2,
        height: 1,
    },
    Entry {
        form: Form::Sequence(179, 180),
        nullable: false,
        first: 536870912,
        goes_on: 0,
        opened: 0,
        rank: 1,
        height: 18,
    },
    Entry {
        form: Form::Choice(108, 182),
        nullable: false,
        first: 144115188075857916,
        goes_on: 0,
        opened: 131072,
        rank: 6,
        height: 7,
    },
    Entry {
        form: Form::Sequence(173, 184),
        nullable: false,
        first: 32,
        goes_on: 0,
        opened: 0,
        rank: 1,
        height: 4,
    },
    Entry {
        form: Form::Sequence(186, 188),
        nullable: false,
        first: 12,
        goes_on: 0,
        opened: 0,
        rank: 2,
        height: 20,
    },
    Entry {
        form: Form::Sequence(8, 190),
        nullable: false,
        first: 144115188075855872,
        goes_on: 144109210051805184,
        opened: 0,
        rank: 2,
        height: 17,
    },
    Entry {
        form: Form::Sequence(14, 192),
        nullable: false,
        first: 448,
        goes_on: 0,
        opened: 0,
        rank: 4,
        height: 5,
    },
    Entry {
        form: Form::Sequence(149, 193),
        nullable: false,
        first: 4194304,
        goes_on: 0,
        opened: 0,
        rank: 1,
        height: 10,
    },
    Entry {
        form: Form::Sequence(195, 196),
        nullable: false,
        first: 1024,
        goes_on: 0,
        opened: 131072,
        rank: 1,
        height: 7,
    },
    Entry {
        form: Form::Choice(199, 200),
        nullable: false,
        first: 8598323200,
        goes_on: 0,
        opened: 0,
        rank: 2,
        height: 1,
    },
    Entry {
        form: Form::Choice(199, 26),
        nullable: false,
        first: 144115196665796608,
        goes_on: 33562624,
        opened: 0,
        rank: 5,
        height: 1,
    },
    Entry {
        form: Form::Sequence(27, 202),
        nullable: false,
        first: 144115188075862016,
        goes_on: 33562624,
        opened: 0,
        rank: 4,
        height: 3,
    },
    Entry {
        form: Form::Sequence(206, 142),
        nullable: false,
        first: 144115188075862016,
        goes_on: 0,
        opened: 0,
        rank: 3,
        height: 2,
    },
    Entry {
        form: Form::Choice(29, 210),
        nullable: false,
        first: 144115205323702272,
        goes_on: 0,
        opened: 131072,
        rank: 8,
        height: 4,
    },
    Entry {
        form: Form::Sequence(214, 215),
        nullable: false,
        first: 16384,
        goes_on: 0,
        opened: 0,
        rank: 1,
        height: 3,
    },
    Entry {
        form: Form::Sequence(222, 223),
        nullable: false,
        first: 65536,
        goes_on: 0,
        opened: 131072,
        rank: 1,
        height: 18,
    },
    Entry {
        form: Form::Clause(131072, 28),
        nullable: true,
        first: 131072,
        goes_on: 0,
        opened: 131072,
        rank: 0,
        height: 0,
    },
    Entry {
        form: Form::Sequence(225, 226),
        nullable: false,
        first: 262144,
        goes_on: 0,
        opened: 0,
        rank: 1,
        height: 18,
    },
    Entry {
        form: Form::Sequence(34, 229),
        nullable: false,
        first: 432380628351057920,
        goes_on: 432380628351057920,
        opened: 131072,
        rank: 23,
        height: 8,
    },
    Entry {
        form: Form::Choice(35, 36),
        nullable: false,
        first: 432380628351057920,
        goes_on: 0,
        opened: 131072,
        rank: 22,
        height: 7,
    },
    Entry {
        form: Form::Sequence(62, 230),
        nullable: false,
        first: 432380628348960768,
        goes_on: 0,
        opened: 131072,
        rank: 21,
        height: 16,
    },
    Entry {
        form: Form::Sequence(231, 232),
        nullable: false,
        first: 2097152,
        goes_on: 0,
        opened: 131072,
        rank: 1,
        height: 6,
    },
    Entry {
        form: Form::Sequence(234, 235),
        nullable: false,
        first: 524288,
        goes_on: 0,
        opened: 0,
        rank: 1,
        height: 18,
    },
    Entry {
        form: Form::Sequence(39, 237),
        nullable: false,
        first: 1008841380654481408,
        goes_on: 1008841380654481408,
        opened: 131072,
        rank: 23,
        height: 8,
    },
    Entry {
        form: Form::Choice(40, 36),
        nullable: false,
        first: 1008841380654481408,
        goes_on: 0,
        opened: 131072,
        rank: 22,
        height: 7,
    },
    Entry {
        form: Form::Sequence(81, 230),
        nullable: false,
        first: 1008841380652384256,
        goes_on: 0,
        opened: 131072,
        rank: 21,
        height: 17,
    },
    Entry {
        form: Form::Sequence(42, 238),
        nullable: false,
        first: 144115205255725056,
        goes_on: 0,
        opened: 0,
        rank: 3,
        height: 17,
    },
    Entry {
        form: Form::Choice(43, 45),
        nullable: false,
        first: 144115205255725056,
        goes_on: 536870912,
        opened: 0,
        rank: 2,
        height: 3,
    },
    Entry {
        form: Form::Sequence(242, 243),
        nullable: false,
        first: 17179869184,
        goes_on: 0,
        opened: 0,
        rank: 1,
        height: 6,
    },
    Entry {
        form: Form::Sequence(42, 245),
        nullable: false,
        first: 144115205255725056,
        goes_on: 570425344,
        opened: 0,
        rank: 3,
        height: 4,
    },
    Entry {
        form: Form::Sequence(142, 247),
        nullable: false,
        first: 144115188075855872,
        goes_on: 536870912,
        opened: 0,
        rank: 1,
        height: 2,
    },
    Entry {
        form: Form::Choice(248, 249),
        nullable: false,
        first: 35046933135360,
        goes_on: 0,
        opened: 0,
        rank: 7,
        height: 1,
    },
    Entry {
        form: Form::Sequence(48, 262),
        nullable: false,
        first: 432380628348960768,
        goes_on: 144109210018250752,
        opened: 0,
        rank: 19,
        height: 14,
    },
    Entry {
        form: Form::Sequence(49, 265),
        nullable: false,
        first: 432380628348960768,
        goes_on: 144109141298774016,
        opened: 0,
        rank: 18,
        height: 13,
    },
    Entry {
        form: Form::Sequence(50, 268),
        nullable: false,
        first: 432380628348960768,
        goes_on: 72051547260846080,
        opened: 0,
        rank: 17,
        height: 12,
    },
    Entry {
        form: Form::Sequence(51, 271),
        nullable: false,
        first: 432380628348960768,
        goes_on: 36022750241882112,
        opened: 0,
        rank: 16,
        height: 11,
    },
    Entry {
        form: Form::Sequence(52, 273),
        nullable: false,
        first: 432380628348960768,
        goes_on: 36020551218626560,
        opened: 0,
        rank: 15,
        height: 10,
    },
    Entry {
        form: Form::Sequence(53, 275),
        nullable: false,
        first: 432380628348960768,
        goes_on: 35994162939559936,
        opened: 0,
        rank: 14,
        height: 9,
    },
    Entry {
        form: Form::Sequence(54, 277),
        nullable: false,
        first: 432380628348960768,
        goes_on: 35993613183746048,
        opened: 0,
        rank: 13,
        height: 8,
    },
    Entry {
        form: Form::Sequence(55, 282),
        nullable: false,
        first: 432380628348960768,
        goes_on: 8972015419523072,
        opened: 0,
        rank: 12,
        height: 7,
    },
    Entry {
        form: Form::Sequence(56, 290),
        nullable: false,
        first: 432380628348960768,
        goes_on: 527766118203392,
        opened: 0,
        rank: 11,
        height: 6,
    },
    Entry {
        form: Form::Sequence(57, 295),
        nullable: false,
        first: 432380628348960768,
        goes_on: 105553653137408,
        opened: 0,
        rank: 10,
        height: 5,
    },
    Entry {
        form: Form::Choice(300, 58),
        nullable: false,
        first: 432380628348960768,
        goes_on: 536870912,
        opened: 0,
        rank: 9,
        height: 4,
    },
    Entry {
        form: Form::Choice(59, 301),
        nullable: false,
        first: 432345581415825408,
        goes_on: 536870912,
        opened: 0,
        rank: 4,
        height: 3,
    },
    Entry {
        form: Form::Sequence(151, 302),
        nullable: false,
        first: 8388608,
        goes_on: 0,
        opened: 0,
        rank: 1,
        height: 16,
    },
    Entry {
        form: Form::Sequence(242, 303),
        nullable: false,
        first: 17179869184,
        goes_on: 0,
        opened: 0,
        rank: 1,
        height: 16,
    },
    Entry {
        form: Form::Sequence(242, 308),
        nullable: false,
        first: 17179869184,
        goes_on: 0,
        opened: 0,
        rank: 1,
        height: 17,
    },
    Entry {
        form: Form::Sequence(47, 306),
        nullable: false,
        first: 432380628348960768,
        goes_on: 144109210051805184,
        opened: 0,
        rank: 20,
        height: 15,
    },
    Entry {
        form: Form::Sequence(47, 309),
        nullable: false,
        first: 432380628348960768,
        goes_on: 144109210018250752,
        opened: 0,
        rank: 20,
        height: 16,
    },
    Entry {
        form: Form::Sequence(179, 310),
        nullable: false,
        first: 536870912,
        goes_on: 0,
        opened: 0,
        rank: 1,
        height: 16,
    },
    Entry {
        form: Form::Choice(313, 314),
        nullable: false,
        first: 432345564227567616,
        goes_on: 536870912,
        opened: 0,
        rank: 2,
        height: 1,
    },
    Entry {
        form: Form::Sequence(67, 315),
        nullable: false,
        first: 1008841380652384256,
        goes_on: 144109210018250752,
        opened: 0,
        rank: 19,
        height: 15,
    },
    Entry {
        form: Form::Sequence(68, 317),
        nullable: false,
        first: 1008841380652384256,
        goes_on: 144109141298774016,
        opened: 0,
        rank: 18,
        height: 14,
    },
    Entry {
        form: Form::Sequence(69, 319),
        nullable: false,
        first: 1008841380652384256,
        goes_on: 72051547260846080,
        opened: 0,
        rank: 17,
        height: 13,
    },
    Entry {
        form: Form::Sequence(70, 321),
        nullable: false,
        first: 1008841380652384256,
        goes_on: 36022750241882112,
        opened: 0,
        rank: 16,
        height: 12,
    },
    Entry {
        form: Form::Sequence(71, 323),
        nullable: false,
        first: 1008841380652384256,
        goes_on: 36020551218626560,
        opened: 0,
        rank: 15,
        height: 11,
    },
    Entry {
        form: Form::Sequence(72, 325),
        nullable: false,
        first: 1008841380652384256,
        goes_on: 35994162939559936,
        opened: 0,
        rank: 14,
        height: 10,
    },
    Entry {
        form: Form::Sequence(73, 327),
        nullable: false,
        first: 1008841380652384256,
        goes_on: 35993613183746048,
        opened: 0,
        rank: 13,
        height: 9,
    },
    Entry {
        form: Form::Sequence(74, 329),
        nullable: false,
        first: 1008841380652384256,
        goes_on: 8972015419523072,
        opened: 0,
        rank: 12,
        height: 8,
    },
    Entry {
        form: Form::Sequence(75, 331),
        nullable: false,
        first: 1008841380652384256,
        goes_on: 527766118203392,
        opened: 0,
        rank: 11,
        height: 7,
    },
    Entry {
        form: Form::Sequence(76, 333),
        nullable: false,
        first: 1008841380652384256,
        goes_on: 105553653137408,
        opened: 0,
        rank: 10,
        height: 6,
    },
    Entry {
        form: Form::Choice(335, 77),
        nullable: false,
        first: 1008841380652384256,
        goes_on: 536870912,
        opened: 0,
        rank: 9,
        height: 5,
    },
    Entry {
        form: Form::Choice(78, 336),
        nullable: false,
        first: 1008806333719248896,
        goes_on: 536870912,
        opened: 0,
        rank: 4,
        height: 4,
    },
    Entry {
        form: Form::Sequence(151, 337),
        nullable: false,
        first: 8388608,
        goes_on: 0,
        opened: 0,
        rank: 1,
        height: 17,
    },
    Entry {
        form: Form::Sequence(242, 338),
        nullable: false,
        first: 17179869184,
        goes_on: 0,
        opened: 0,
        rank: 1,
        height: 17,
    },
    Entry {
        form: Form::Sequence(242, 343),
        nullable: false,
        first: 17179869184,
        goes_on: 0,
        opened: 0,
        rank: 1,
        height: 18,
    },
    Entry {
        form: Form::Sequence(66, 341),
        nullable: false,
        first: 1008841380652384256,
        goes_on: 144109210051805184,
        opened: 0,
        rank: 20,
        height: 16,
    },
    Entry {
        form: Form::Sequence(66, 344),
        nullable: false,
        first: 1008841380652384256,
        goes_on: 144109210018250752,
        opened: 0,
        rank: 20,
        height: 17,
    },
    Entry {
        form: Form::Sequence(179, 345),
        nullable: false,
        first: 536870912,
        goes_on: 0,
        opened: 0,
        rank: 1,
        height: 17,
    },
    Entry {
        form: Form::Choice(348, 350),
        nullable: false,
        first: 1008806316530991104,
        goes_on: 536870912,
        opened: 0,
        rank: 2,
        height: 2,
    },
    Entry {
        form: Form::Sequence(86, 352),
        nullable: false,
        first: 288265440273104896,
        goes_on: 144109209481379840,
        opened: 0,
        rank: 19,
        height: 13,
    },
    Entry {
        form: Form::Sequence(87, 354),
        nullable: false,
        first: 288265440273104896,
        goes_on: 144109140761903104,
        opened: 0,
        rank: 18,
        height: 12,
    },
    Entry {
        form: Form::Sequence(88, 356),
        nullable: false,
        first: 288265440273104896,
        goes_on: 72051546723975168,
        opened: 0,
        rank: 17,
        height: 11,
    },
    Entry {
        form: Form::Sequence(89, 358),
        nullable: false,
        first: 288265440273104896,
        goes_on: 36022749705011200,
        opened: 0,
        rank: 16,
        height: 10,
    },
    Entry {
        form: Form::Sequence(90, 360),
        nullable: false,
        first: 288265440273104896,
        goes_on: 36020550681755648,
        opened: 0,
        rank: 15,
        height: 9,
    },
    Entry {
        form: Form::Sequence(91, 362),
        nullable: false,
        first: 288265440273104896,
        goes_on: 35994162402689024,
        opened: 0,
        rank: 14,
        height: 8,
    },
    Entry {
        form: Form::Sequence(92, 364),
        nullable: false,
        first: 288265440273104896,
        goes_on: 35993612646875136,
        opened: 0,
        rank: 13,
        height: 7,
    },
    Entry {
        form: Form::Sequence(93, 366),
        nullable: false,
        first: 288265440273104896,
        goes_on: 8972014882652160,
        opened: 0,
        rank: 12,
        height: 6,
    },
    Entry {
        form: Form::Sequence(94, 368),
        nullable: false,
        first: 288265440273104896,
        goes_on: 527765581332480,
        opened: 0,
        rank: 11,
        height: 5,
    },
    Entry {
        form: Form::Sequence(95, 370),
        nullable: false,
        first: 288265440273104896,
        goes_on: 105553116266496,
        opened: 0,
        rank: 10,
        height: 4,
    },
    Entry {
        form: Form::Choice(372, 96),
        nullable: false,
        first: 288265440273104896,
        goes_on: 0,
        opened: 0,
        rank: 9,
        height: 3,
    },
    Entry {
        form: Form::Choice(97, 373),
        nullable: false,
        first: 288230393339969536,
        goes_on: 0,
        opened: 0,
        rank: 3,
        height: 2,
    },
    Entry {
        form: Form::Sequence(151, 374),
        nullable: false,
        first: 8388608,
        goes_on: 0,
        opened: 0,
        rank: 1,
        height: 15,
    },
    Entry {
        form: Form::Sequence(242, 375),
        nullable: false,
        first: 17179869184,
        goes_on: 0,
        opened: 0,
        rank: 1,
        height: 15,
    },
    Entry {
        form: Form::Sequence(242, 380),
        nullable: false,
        first: 17179869184,
        goes_on: 0,
        opened: 0,
        rank: 1,
        height: 16,
    },
    Entry {
        form: Form::Sequence(85, 378),
        nullable: false,
        first: 288265440273104896,
        goes_on: 144109209514934272,
        opened: 0,
        rank: 20,
        height: 14,
    },
    Entry {
        form: Form::Sequence(85, 381),
        nullable: false,
        first: 288265440273104896,
        goes_on: 144109209481379840,
        opened: 0,
        rank: 20,
        height: 15,
    },
    Entry {
        form: Form::Sequence(179, 382),
        nullable: false,
        first: 536870912,
        goes_on: 0,
        opened: 0,
        rank: 1,
        height: 15,
    },
    Entry {
        form: Form::Terminal(58),
        nullable: false,
        first: 288230376151711744,
        goes_on: 0,
        opened: 0,
        rank: 0,
        height: 0,
    },
    Entry {
        form: Form::Choice(105, 107),
        nullable: false,
        first: 432345581407436800,
        goes_on: 536870912,
        opened: 0,
        rank: 3,
        height: 2,
    },
    Entry {
        form: Form::Sequence(242, 385),
        nullable: false,
        first: 17179869184,
        goes_on: 0,
        opened: 0,
        rank: 1,
        height: 5,
    },
    Entry {
        form: Form::Sequence(104, 386),
        nullable: false,
        first: 432345581407436800,
        goes_on: 570425344,
        opened: 0,
        rank: 4,
        height: 3,
    },
    Entry {
        form: Form::Choice(313, 388),
        nullable: false,
        first: 432345564227567616,
        goes_on: 536870912,
        opened: 0,
        rank: 2,
        height: 1,
    },
    Entry {
        form: Form::Choice(21, 390),
        nullable: false,
        first: 144115188075856848,
        goes_on: 0,
        opened: 0,
        rank: 5,
        height: 6,
    },
    Entry {
        form: Form::Sequence(172, 392),
        nullable: false,
        first: 16,
        goes_on: 0,
        opened: 0,
        rank: 1,
        height: 6,
    },
    Entry {
        form: Form::Sequence(111, 394),
        nullable: false,
        first: 144115188075855872,
        goes_on: 144109210320240640,
        opened: 0,
        rank: 2,
        height: 3,
    },
    Entry {
        form: Form::Sequence(142, 396),
        nullable: false,
        first: 144115188075855872,
        goes_on: 144109210286686208,
        opened: 0,
        rank: 1,
        height: 2,
    },
    Entry {
        form: Form::Sequence(397, 398),
        nullable: false,
        first: 512,
        goes_on: 0,
        opened: 0,
        rank: 1,
        height: 19,
    },
    Entry {
        form: Form::Sequence(114, 399),
        nullable: false,
        first: 144115205255725056,
        goes_on: 144109210051805184,
        opened: 0,
        rank: 4,
        height: 17,
    },
    Entry {
        form: Form::Sequence(42, 161),
        nullable: false,
        first: 144115205255725056,
        goes_on: 144109210018250752,
        opened: 0,
        rank: 3,
        height: 16,
    },
    Entry {
        form: Form::Sequence(142, 401),
        nullable: false,
        first: 144115188075855872,
        goes_on: 0,
        opened: 0,
        rank: 1,
        height: 8,
    },
    Entry {
        form: Form::Sequence(117, 404),
        nullable: false,
        first: 144115188075855872,
        goes_on: 33554432,
        opened: 0,
        rank: 2,
        height: 5,
    },
    Entry {
        form: Form::Sequence(142, 406),
        nullable: false,
        first: 144115188075855872,
        goes_on: 0,
        opened: 0,
        rank: 1,
        height: 4,
    },
    Entry {
        form: Form::Choice(119, 62),
        nullable: false,
        first: 432380628483178496,
        goes_on: 144109210051805184,
        opened: 0,
        rank: 21,
        height: 7,
    },
    Entry {
        form: Form::Sequence(120, 409),
        nullable: false,
        first: 134217728,
        goes_on: 33554432,
        opened: 0,
        rank: 2,
        height: 6,
    },
    Entry {
        form: Form::Sequence(411, 412),
        nullable: false,
        first: 134217728,
        goes_on: 0,
        opened: 0,
        rank: 1,
        height: 5,
    },
    Entry {
        form: Form::Choice(21, 416),
        nullable: false,
        first: 144115188075856848,
        goes_on: 0,
        opened: 0,
        rank: 5,
        height: 6,
    },
    Entry {
        form: Form::Sequence(172, 418),
        nullable: false,
        first: 16,
        goes_on: 0,
        opened: 0,
        rank: 1,
        height: 6,
    },
    Entry {
        form: Form::Sequence(124, 420),
        nullable: false,
        first: 144115188075855872,
        goes_on: 838860800,
        opened: 0,
        rank: 2,
        height: 3,
    },
    Entry {
        form: Form::Sequence(142, 422),
        nullable: false,
        first: 144115188075855872,
        goes_on: 805306368,
        opened: 0,
        rank: 1,
        height: 2,
    },
    Entry {
        form: Form::Sequence(397, 424),
        nullable: false,
        first: 512,
        goes_on: 0,
        opened: 0,
        rank: 1,
        height: 7,
    },
    Entry {
        form: Form::Sequence(127, 425),
        nullable: false,
        first: 144115205255725056,
        goes_on: 570425344,
        opened: 0,
        rank: 4,
        height: 5,
    },
    Entry {
        form: Form::Sequence(42, 423),
        nullable: false,
        first: 144115205255725056,
        goes_on: 536870912,
        opened: 0,
        rank: 3,
        height: 4,
    },
    Entry {
        form: Form::Sequence(142, 427),
        nullable: false,
        first: 144115188075855872,
        goes_on: 0,
        opened: 0,
        rank: 1,
        height: 8,
    },
    Entry {
        form: Form::Sequence(130, 429),
        nullable: false,
        first: 144115188075855872,
        goes_on: 33554432,
        opened: 0,
        rank: 2,
        height: 5,
    },
    Entry {
        form: Form::Sequence(142, 431),
        nullable: false,
        first: 144115188075855872,
        goes_on: 0,
        opened: 0,
        rank: 1,
        height: 4,
    },
    Entry {
        form: Form::Choice(132, 106),
        nullable: false,
        first: 432345581541654528,
        goes_on: 570425344,
        opened: 0,
        rank: 5,
        height: 4,
    },
    Entry {
        form: Form::Sequence(133, 434),
        nullable: false,
        first: 134217728,
        goes_on: 33554432,
        opened: 0,
        rank: 2,
        height: 6,
    },
    Entry {
        form: Form::Sequence(411, 436),
        nullable: false,
        first: 134217728,
        goes_on: 0,
        opened: 0,
        rank: 1,
        height: 5,
    },
    Entry {
        form: Form::Terminal(0),
        nullable: false,
        first: 1,
        goes_on: 0,
        opened: 0,
        rank: 0,
        height: 0,
    },
    Entry {
        form: Form::Sequence(4, 136),
        nullable: false,
        first: 144115188075855872,
        goes_on: 0,
        opened: 0,
        rank: 2,
        height: 5,
    },
    Entry {
        form: Form::Sequence(137, 138),
        nullable: false,
        first: 144115188075857918,
        goes_on: 0,
        opened: 0,
        rank: 8,
        height: 1,
    },
    Entry {
        form: Form::Repeat(17),
        nullable: true,
        first: 144115188075857916,
        goes_on: 144115188075857916,
        opened: 131072,
        rank: 7,
        height: 0,
    },
    Entry {
        form: Form::Terminal(1),
        nullable: false,
        first: 2,
        goes_on: 0,
        opened: 0,
        rank: 0,
        height: 0,
    },
    Entry {
        form: Form::Sequence(4, 140),
        nullable: false,
        first: 144115188075855872,
        goes_on: 0,
        opened: 0,
        rank: 2,
        height: 5,
    },
    Entry {
        form: Form::Sequence(141, 138),
        nullable: false,
        first: 144115188075856850,
        goes_on: 0,
        opened: 0,
        rank: 7,
        height: 1,
    },
    Entry {
        form: Form::Repeat(121),
        nullable: true,
        first: 144115188075856848,
        goes_on: 144115188075856848,
        opened: 0,
        rank: 6,
        height: 0,
    },
    Entry {
        form: Form::Terminal(57),
        nullable: false,
        first: 144115188075855872,
        goes_on: 0,
        opened: 0,
        rank: 0,
        height: 0,
    },
    Entry {
        form: Form::Sequence(144, 146),
        nullable: false,
        first: 79691776,
        goes_on: 0,
        opened: 0,
        rank: 4,
        height: 3,
    },
    Entry {
        form: Form::Choice(5, 145),
        nullable: true,
        first: 4194304,
        goes_on: 4194304,
        opened: 0,
        rank: 2,
        height: 1,
    },
    Entry {
        form: Form::Empty,
        nullable: true,
        first: 0,
        goes_on: 0,
        opened: 0,
        rank: 0,
        height: 0,
    },
    Entry {
        form: Form::Sequence(147, 148),
        nullable: false,
        first: 75497472,
        goes_on: 0,
        opened: 0,
        rank: 3,
        height: 2,
    },
    Entry {
        form: Form::Choice(9, 145),
        nullable: true,
        first: 8388608,
        goes_on: 8388608,
        opened: 0,
        rank: 2,
        height: 1,
    },
    Entry {
        form: Form::Terminal(26),
        nullable: false,
        first: 67108864,
        goes_on: 0,
        opened: 0,
        rank: 0,
        height: 0,
    },
    Entry {
        form: Form::Terminal(22),
        nullable: false,
        first: 4194304,
        goes_on: 0,
        opened: 0,
        rank: 0,
        height: 0,
    },
    Entry {
        form: Form::Sequence(151, 152),
        nullable: false,
        first: 8388608,
        goes_on: 0,
        opened: 0,
        rank: 1,
        height: 21,
    },
    Entry {
        form: Form::Terminal(23),
        nullable: false,
        first: 8388608,
        goes_on: 0,
        opened: 0,
        rank: 0,
        height: 0,
    },
    Entry {
        form: Form::Sequence(6, 153),
        nullable: false,
        first: 144115188612726788,
        goes_on: 0,
        opened: 0,
        rank: 6,
        height: 20,
    },
    Entry {
        form: Form::Terminal(24),
        nullable: false,
        first: 16777216,
        goes_on: 0,
        opened: 0,
        rank: 0,
        height: 0,
    },
    Entry {
        form: Form::Repeat(155),
        nullable: true,
        first: 33554432,
        goes_on: 144109210051805184,
        opened: 0,
        rank: 2,
        height: 0,
    },
    Entry {
        form: Form::Sequence(156, 7),
        nullable: false,
        first: 33554432,
        goes_on: 144109210018250752,
        opened: 0,
        rank: 1,
        height: 19,
    },
    Entry {
        form: Form::Terminal(25),
        nullable: false,
        first: 33554432,
        goes_on: 0,
        opened: 0,
        rank: 0,
        height: 0,
    },
    Entry {
        form: Form::Choice(158, 145),
        nullable: true,
        first: 4,
        goes_on: 4,
        opened: 0,
        rank: 1,
        height: 1,
    },
    Entry {
        form: Form::Terminal(2),
        nullable: false,
        first: 4,
        goes_on: 0,
        opened: 0,
        rank: 0,
        height: 0,
    },
    Entry {
        form: Form::Sequence(160, 8),
        nullable: false,
        first: 144115188612726784,
        goes_on: 144109210018250752,
        opened: 0,
        rank: 3,
        height: 17,
    },
    Entry {
        form: Form::Choice(16, 145),
        nullable: true,
        first: 536870912,
        goes_on: 536870912,
        opened: 0,
        rank: 2,
        height: 1,
    },
    Entry {
        form: Form::Sequence(162, 47),
        nullable: false,
        first: 268435456,
        goes_on: 144109210018250752,
        opened: 0,
        rank: 1,
        height: 15,
    },
    Entry {
        form: Form::Terminal(28),
        nullable: false,
        first: 268435456,
        goes_on: 0,
        opened: 0,
        rank: 0,
        height: 0,
    },
    Entry {
        form: Form::Sequence(164, 153),
        nullable: false,
        first: 144115188092633536,
        goes_on: 0,
        opened: 0,
        rank: 7,
        height: 2,
    },
    Entry {
        form: Form::Choice(10, 145),
        nullable: true,
        first: 144115188075856320,
        goes_on: 144115188109410752,
        opened: 0,
        rank: 6,
        height: 1,
    },
    Entry {
        form: Form::Repeat(166),
        nullable: true,
        first: 33554432,
        goes_on: 33554432,
        opened: 0,
        rank: 2,
        height: 0,
    },
    Entry {
        form: Form::Sequence(156, 142),
        nullable: false,
        first: 33554432,
        goes_on: 0,
        opened: 0,
        rank: 1,
        height: 1,
    },
    Entry {
        form: Form::Repeat(168),
        nullable: true,
        first: 33554432,
        goes_on: 33554432,
        opened: 0,
        rank: 2,
        height: 0,
    },
    Entry {
        form: Form::Sequence(156, 13),
        nullable: false,
        first: 33554432,
        goes_on: 0,
        opened: 0,
        rank: 1,
        height: 2,
    },
    Entry {
        form: Form::Sequence(170, 174),
        nullable: false,
        first: 144115188612726832,
        goes_on: 0,
        opened: 0,
        rank: 4,
        height: 3,
    },
    Entry {
        form: Form::Choice(171, 145),
        nullable: true,
        first: 48,
        goes_on: 48,
        opened: 0,
        rank: 2,
        height: 1,
    },
    Entry {
        form: Form::Choice(172, 173),
        nullable: false,
        first: 48,
        goes_on: 0,
        opened: 0,
        rank: 1,
        height: 1,
    },
    Entry {
        form: Form::Terminal(4),
        nullable: false,
        first: 16,
        goes_on: 0,
        opened: 0,
        rank: 0,
        height: 0,
    },
    Entry {
        form: Form::Terminal(5),
        nullable: false,
        first: 32,
        goes_on: 0,
        opened: 0,
        rank: 0,
        height: 0,
    },
    Entry {
        form: Form::Sequence(160, 142),
        nullable: false,
        first: 144115188612726784,
        goes_on: 0,
        opened: 0,
        rank: 3,
        height: 2,
    },
    Entry {
        form: Form::Terminal(6),
        nullable: false,
        first: 64,
        goes_on: 0,
        opened: 0,
        rank: 0,
        height: 0,
    },
    Entry {
        form: Form::Choice(177, 178),
        nullable: false,
        first: 384,
        goes_on: 0,
        opened: 0,
        rank: 1,
        height: 1,
    },
    Entry {
        form: Form::Terminal(7),
        nullable: false,
        first: 128,
        goes_on: 0,
        opened: 0,
        rank: 0,
        height: 0,
    },
    Entry {
        form: Form::Terminal(8),
        nullable: false,
        first: 256,
        goes_on: 0,
        opened: 0,
        rank: 0,
        height: 0,
    },
    Entry {
        form: Form::Terminal(29),
        nullable: false,
        first: 536870912,
        goes_on: 0,
        opened: 0,
        rank: 0,
        height: 0,
    },
    Entry {
        form: Form::Sequence(63, 181),
        nullable: false,
        first: 432380628348960768,
        goes_on: 0,
        opened: 0,
        rank: 21,
        height: 17,
    },
    Entry {
        form: Form::Terminal(30),
        nullable: false,
        first: 1073741824,
        goes_on: 0,
        opened: 0,
        rank: 0,
        height: 0,
    },
    Entry {
        form: Form::Choice(18, 183),
        nullable: false,
        first: 1068,
        goes_on: 0,
        opened: 131072,
        rank: 4,
        height: 5,
    },
    Entry {
        form: Form::Choice(19, 23),
        nullable: false,
        first: 1036,
        goes_on: 0,
        opened: 131072,
        rank: 3,
        height: 8,
    },
    Entry {
        form: Form::Sequence(160, 185),
        nullable: false,
        first: 144115188612726784,
        goes_on: 0,
        opened: 0,
        rank: 3,
        height: 3,
    },
    Entry {
        form: Form::Sequence(11, 148),
        nullable: false,
        first: 144115188075855872,
        goes_on: 0,
        opened: 0,
        rank: 2,
        height: 2,
    },
    Entry {
        form: Form::Choice(158, 187),
        nullable: false,
        first: 12,
        goes_on: 0,
        opened: 0,
        rank: 1,
        height: 1,
    },
    Entry {
        form: Form::Terminal(3),
        nullable: false,
        first: 8,
        goes_on: 0,
        opened: 0,
        rank: 0,
        height: 0,
    },
    Entry {
        form: Form::Sequence(160, 189),
        nullable: false,
        first: 144115188612726784,
        goes_on: 0,
        opened: 0,
        rank: 4,
        height: 19,
    },
    Entry {
        form: Form::Sequence(20, 148),
        nullable: false,
        first: 144115188075855872,
        goes_on: 0,
        opened: 0,
        rank: 3,
        height: 18,
    },
    Entry {
        form: Form::Repeat(191),
        nullable: true,
        first: 33554432,
        goes_on: 144109210051805184,
        opened: 0,
        rank: 2,
        height: 0,
    },
    Entry {
        form: Form::Sequence(156, 8),
        nullable: false,
        first: 33554432,
        goes_on: 144109210018250752,
        opened: 0,
        rank: 1,
        height: 17,
    },
    Entry {
        form: Form::Sequence(165, 148),
        nullable: false,
        first: 100663296,
        goes_on: 0,
        opened: 0,
        rank: 3,
        height: 1,
    },
    Entry {
        form: Form::Sequence(151, 194),
        nullable: false,
        first: 8388608,
        goes_on: 0,
        opened: 0,
        rank: 1,
        height: 9,
    },
    Entry {
        form: Form::Sequence(118, 153),
        nullable: false,
        first: 432380628483178496,
        goes_on: 0,
        opened: 0,
        rank: 22,
        height: 8,
    },
    Entry {
        form: Form::Terminal(10),
        nullable: false,
        first: 1024,
        goes_on: 0,
        opened: 0,
        rank: 0,
        height: 0,
    },
    Entry {
        form: Form::Sequence(197, 198),
        nullable: false,
        first: 4294967296,
        goes_on: 0,
        opened: 131072,
        rank: 1,
        height: 6,
    },
    Entry {
        form: Form::Terminal(32),
        nullable: false,
        first: 4294967296,
        goes_on: 0,
        opened: 0,
        rank: 0,
        height: 0,
    },
    Entry {
        form: Form::Sequence(24, 28),
        nullable: false,
        first: 8598323200,
        goes_on: 0,
        opened: 131072,
        rank: 3,
        height: 5,
    },
    Entry {
        form: Form::Terminal(33),
        nullable: false,
        first: 8589934592,
        goes_on: 0,
        opened: 0,
        rank: 0,
        height: 0,
    },
    Entry {
        form: Form::Sequence(151, 201),
        nullable: false,
        first: 8388608,
        goes_on: 0,
        opened: 0,
        rank: 1,
        height: 3,
    },
    Entry {
        form: Form::Sequence(25, 153),
        nullable: false,
        first: 144115196665796608,
        goes_on: 0,
        opened: 0,
        rank: 6,
        height: 2,
    },
    Entry {
        form: Form::Repeat(203),
        nullable: true,
        first: 33562624,
        goes_on: 33562624,
        opened: 0,
        rank: 3,
        height: 0,
    },
    Entry {
        form: Form::Sequence(204, 27),
        nullable: false,
        first: 33562624,
        goes_on: 0,
        opened: 0,
        rank: 2,
        height: 3,
    },
    Entry {
        form: Form::Choice(205, 156),
        nullable: false,
        first: 33562624,
        goes_on: 0,
        opened: 0,
        rank: 1,
        height: 1,
    },
    Entry {
        form: Form::Terminal(13),
        nullable: false,
        first: 8192,
        goes_on: 0,
        opened: 0,
        rank: 0,
        height: 0,
    },
    Entry {
        form: Form::Choice(207, 145),
        nullable: true,
        first: 6144,
        goes_on: 6144,
        opened: 0,
        rank: 2,
        height: 1,
    },
    Entry {
        form: Form::Choice(208, 209),
        nullable: false,
        first: 6144,
        goes_on: 0,
        opened: 0,
        rank: 1,
        height: 1,
    },
    Entry {
        form: Form::Terminal(11),
        nullable: false,
        first: 2048,
        goes_on: 0,
        opened: 0,
        rank: 0,
        height: 0,
    },
    Entry {
        form: Form::Terminal(12),
        nullable: false,
        first: 4096,
        goes_on: 0,
        opened: 0,
        rank: 0,
        height: 0,
    },
    Entry {
        form: Form::Choice(30, 211),
        nullable: false,
        first: 144115205323685888,
        goes_on: 0,
        opened: 131072,
        rank: 7,
        height: 4,
    },
    Entry {
        form: Form::Choice(32, 212),
        nullable: false,
        first: 144115205323620352,
        goes_on: 0,
        opened: 0,
        rank: 6,
        height: 3,
    },
    Entry {
        form: Form::Choice(37, 213),
        nullable: false,
        first: 144115205323358208,
        goes_on: 0,
        opened: 0,
        rank: 5,
        height: 2,
    },
    Entry {
        form: Form::Choice(41, 148),
        nullable: false,
        first: 144115205322833920,
        goes_on: 0,
        opened: 0,
        rank: 4,
        height: 1,
    },
    Entry {
        form: Form::Terminal(14),
        nullable: false,
        first: 16384,
        goes_on: 0,
        opened: 0,
        rank: 0,
        height: 0,
    },
    Entry {
        form: Form::Sequence(216, 219),
        nullable: false,
        first: 144115207471218688,
        goes_on: 0,
        opened: 0,
        rank: 11,
        height: 2,
    },
    Entry {
        form: Form::Choice(217, 145),
        nullable: true,
        first: 2147483648,
        goes_on: 2147483648,
        opened: 0,
        rank: 2,
        height: 1,
    },
    Entry {
        form: Form::Sequence(218, 142),
        nullable: false,
        first: 2147483648,
        goes_on: 0,
        opened: 0,
        rank: 1,
        height: 1,
    },
    Entry {
        form: Form::Terminal(31),
        nullable: false,
        first: 2147483648,
        goes_on: 0,
        opened: 0,
        rank: 0,
        height: 0,
    },
    Entry {
        form: Form::Sequence(220, 221),
        nullable: false,
        first: 144115205323735040,
        goes_on: 0,
        opened: 0,
        rank: 10,
        height: 1,
    },
    Entry {
        form: Form::Repeat(28),
        nullable: true,
        first: 144115205323702272,
        goes_on: 144115205323702272,
        opened: 131072,
        rank: 9,
        height: 0,
    },
    Entry {
        form: Form::Terminal(15),
        nullable: false,
        first: 32768,
        goes_on: 0,
        opened: 0,
        rank: 0,
        height: 0,
    },
    Entry {
        form: Form::Terminal(16),
        nullable: false,
        first: 65536,
        goes_on: 0,
        opened: 0,
        rank: 0,
        height: 0,
    },
    Entry {
        form: Form::Sequence(59, 224),
        nullable: false,
        first: 8388608,
        goes_on: 0,
        opened: 131072,
        rank: 2,
        height: 17,
    },
    Entry {
        form: Form::Sequence(28, 31),
        nullable: false,
        first: 144115205323702272,
        goes_on: 0,
        opened: 131072,
        rank: 9,
        height: 5,
    },
    Entry {
        form: Form::Terminal(18),
        nullable: false,
        first: 262144,
        goes_on: 0,
        opened: 0,
        rank: 0,
        height: 0,
    },
    Entry {
        form: Form::Sequence(59, 227),
        nullable: false,
        first: 8388608,
        goes_on: 0,
        opened: 0,
        rank: 2,
        height: 17,
    },
    Entry {
        form: Form::Sequence(33, 228),
        nullable: false,
        first: 432380628351057920,
        goes_on: 0,
        opened: 0,
        rank: 24,
        height: 9,
    },
    Entry {
        form: Form::Terminal(20),
        nullable: false,
        first: 1048576,
        goes_on: 0,
        opened: 0,
        rank: 0,
        height: 0,
    },
    Entry {
        form: Form::Repeat(34),
        nullable: true,
        first: 432380628351057920,
        goes_on: 432380628351057920,
        opened: 131072,
        rank: 23,
        height: 0,
    },
    Entry {
        form: Form::Sequence(218, 28),
        nullable: false,
        first: 2147483648,
        goes_on: 0,
        opened: 131072,
        rank: 1,
        height: 5,
    },
    Entry {
        form: Form::Terminal(21),
        nullable: false,
        first: 2097152,
        goes_on: 0,
        opened: 0,
        rank: 0,
        height: 0,
    },
    Entry {
        form: Form::Sequence(233, 28),
        nullable: false,
        first: 144115207471185920,
        goes_on: 0,
        opened: 131072,
        rank: 9,
        height: 5,
    },
    Entry {
        form: Form::Choice(218, 145),
        nullable: true,
        first: 2147483648,
        goes_on: 2147483648,
        opened: 0,
        rank: 1,
        height: 1,
    },
    Entry {
        form: Form::Terminal(19),
        nullable: false,
        first: 524288,
        goes_on: 0,
        opened: 0,
        rank: 0,
        height: 0,
    },
    Entry {
        form: Form::Sequence(59, 236),
        nullable: false,
        first: 8388608,
        goes_on: 0,
        opened: 0,
        rank: 2,
        height: 17,
    },
    Entry {
        form: Form::Sequence(38, 228),
        nullable: false,
        first: 1008841380654481408,
        goes_on: 0,
        opened: 0,
        rank: 24,
        height: 9,
    },
    Entry {
        form: Form::Repeat(39),
        nullable: true,
        first: 1008841380654481408,
        goes_on: 1008841380654481408,
        opened: 131072,
        rank: 23,
        height: 0,
    },
    Entry {
        form: Form::Sequence(239, 241),
        nullable: false,
        first: 1125900175278080,
        goes_on: 0,
        opened: 0,
        rank: 2,
        height: 16,
    },
    Entry {
        form: Form::Choice(162, 240),
        nullable: false,
        first: 1125900175278080,
        goes_on: 0,
        opened: 0,
        rank: 1,
        height: 1,
    },
    Entry {
        form: Form::Terminal(50),
        nullable: false,
        first: 1125899906842624,
        goes_on: 0,
        opened: 0,
        rank: 0,
        height: 0,
    },
    Entry {
        form: Form::Sequence(47, 148),
        nullable: false,
        first: 432380628348960768,
        goes_on: 0,
        opened: 0,
        rank: 20,
        height: 15,
    },
    Entry {
        form: Form::Terminal(34),
        nullable: false,
        first: 17179869184,
        goes_on: 0,
        opened: 0,
        rank: 0,
        height: 0,
    },
    Entry {
        form: Form::Sequence(44, 244),
        nullable: false,
        first: 144115205255725056,
        goes_on: 0,
        opened: 0,
        rank: 4,
        height: 5,
    },
    Entry {
        form: Form::Terminal(35),
        nullable: false,
        first: 34359738368,
        goes_on: 0,
        opened: 0,
        rank: 0,
        height: 0,
    },
    Entry {
        form: Form::Repeat(246),
        nullable: true,
        first: 33554432,
        goes_on: 570425344,
        opened: 0,
        rank: 2,
        height: 0,
    },
    Entry {
        form: Form::Sequence(156, 42),
        nullable: false,
        first: 33554432,
        goes_on: 536870912,
        opened: 0,
        rank: 1,
        height: 4,
    },
    Entry {
        form: Form::Choice(64, 145),
        nullable: true,
        first: 536870912,
        goes_on: 536870912,
        opened: 0,
        rank: 2,
        height: 1,
    },
    Entry {
        form: Form::Terminal(37),
        nullable: false,
        first: 137438953472,
        goes_on: 0,
        opened: 0,
        rank: 0,
        height: 0,
    },
    Entry {
        form: Form::Choice(250, 251),
        nullable: false,
        first: 34909494181888,
        goes_on: 0,
        opened: 0,
        rank: 6,
        height: 1,
    },
    Entry {
        form: Form::Terminal(38),
        nullable: false,
        first: 274877906944,
        goes_on: 0,
        opened: 0,
        rank: 0,
        height: 0,
    },
    Entry {
        form: Form::Choice(252, 253),
        nullable: false,
        first: 34634616274944,
        goes_on: 0,
        opened: 0,
        rank: 5,
        height: 1,
    },
    Entry {
        form: Form::Terminal(39),
        nullable: false,
        first: 549755813888,
        goes_on: 0,
        opened: 0,
        rank: 0,
        height: 0,
    },
    Entry {
        form: Form::Choice(254, 255),
        nullable: false,
        first: 34084860461056,
        goes_on: 0,
        opened: 0,
        rank: 4,
        height: 1,
    },
    Entry {
        form: Form::Terminal(40),
        nullable: false,
        first: 1099511627776,
        goes_on: 0,
        opened: 0,
        rank: 0,
        height: 0,
    },
    Entry {
        form: Form::Choice(256, 257),
        nullable: false,
        first: 32985348833280,
        goes_on: 0,
        opened: 0,
        rank: 3,
        height: 1,
    },
    Entry {
        form: Form::Terminal(41),
        nullable: false,
        first: 2199023255552,
        goes_on: 0,
        opened: 0,
        rank: 0,
        height: 0,
    },
    Entry {
        form: Form::Choice(258, 259),
        nullable: false,
        first: 30786325577728,
        goes_on: 0,
        opened: 0,
        rank: 2,
        height: 1,
    },
    Entry {
        form: Form::Terminal(42),
        nullable: false,
        first: 4398046511104,
        goes_on: 0,
        opened: 0,
        rank: 0,
        height: 0,
    },
    Entry {
        form: Form::Choice(260, 261),
        nullable: false,
        first: 26388279066624,
        goes_on: 0,
        opened: 0,
        rank: 1,
        height: 1,
    },
    Entry {
        form: Form::Terminal(43),
        nullable: false,
        first: 8796093022208,
        goes_on: 0,
        opened: 0,
        rank: 0,
        height: 0,
    },
    Entry {
        form: Form::Terminal(44),
        nullable: false,
        first: 17592186044416,
        goes_on: 0,
        opened: 0,
        rank: 0,
        height: 0,
    },
    Entry {
        form: Form::Choice(263, 145),
        nullable: true,
        first: 68719476736,
        goes_on: 144109210018250752,
        opened: 0,
        rank: 2,
        height: 1,
    },
    Entry {
        form: Form::Sequence(264, 63),
        nullable: false,
        first: 68719476736,
        goes_on: 144109210018250752,
        opened: 0,
        rank: 1,
        height: 17,
    },
    Entry {
        form: Form::Terminal(36),
        nullable: false,
        first: 68719476736,
        goes_on: 0,
        opened: 0,
        rank: 0,
        height: 0,
    },
    Entry {
        form: Form::Repeat(266),
        nullable: true,
        first: 72057594037927936,
        goes_on: 144109141298774016,
        opened: 0,
        rank: 2,
        height: 0,
    },
    Entry {
        form: Form::Sequence(267, 49),
        nullable: false,
        first: 72057594037927936,
        goes_on: 72051547260846080,
        opened: 0,
        rank: 1,
        height: 13,
    },
    Entry {
        form: Form::Terminal(56),
        nullable: false,
        first: 72057594037927936,
        goes_on: 0,
        opened: 0,
        rank: 0,
        height: 0,
    },
    Entry {
        form: Form::Repeat(269),
        nullable: true,
        first: 36028797018963968,
        goes_on: 72051547260846080,
        opened: 0,
        rank: 2,
        height: 0,
    },
    Entry {
        form: Form::Sequence(270, 50),
        nullable: false,
        first: 36028797018963968,
        goes_on: 36022750241882112,
        opened: 0,
        rank: 1,
        height: 12,
    },
    Entry {
        form: Form::Terminal(55),
        nullable: false,
        first: 36028797018963968,
        goes_on: 0,
        opened: 0,
        rank: 0,
        height: 0,
    },
    Entry {
        form: Form::Repeat(272),
        nullable: true,
        first: 2199023255552,
        goes_on: 36022750241882112,
        opened: 0,
        rank: 2,
        height: 0,
    },
    Entry {
        form: Form::Sequence(256, 51),
        nullable: false,
        first: 2199023255552,
        goes_on: 36020551218626560,
        opened: 0,
        rank: 1,
        height: 11,
    },
    Entry {
        form: Form::Repeat(274),
        nullable: true,
        first: 26388279066624,
        goes_on: 36020551218626560,
        opened: 0,
        rank: 3,
        height: 0,
    },
    Entry {
        form: Form::Sequence(259, 52),
        nullable: false,
        first: 26388279066624,
        goes_on: 35994162939559936,
        opened: 0,
        rank: 2,
        height: 10,
    },
    Entry {
        form: Form::Repeat(276),
        nullable: true,
        first: 549755813888,
        goes_on: 35994162939559936,
        opened: 0,
        rank: 2,
        height: 0,
    },
    Entry {
        form: Form::Sequence(252, 53),
        nullable: false,
        first: 549755813888,
        goes_on: 35993613183746048,
        opened: 0,
        rank: 1,
        height: 9,
    },
    Entry {
        form: Form::Repeat(278),
        nullable: true,
        first: 27021597764222976,
        goes_on: 35993613183746048,
        opened: 0,
        rank: 3,
        height: 0,
    },
    Entry {
        form: Form::Sequence(279, 54),
        nullable: false,
        first: 27021597764222976,
        goes_on: 8972015419523072,
        opened: 0,
        rank: 2,
        height: 8,
    },
    Entry {
        form: Form::Choice(280, 281),
        nullable: false,
        first: 27021597764222976,
        goes_on: 0,
        opened: 0,
        rank: 1,
        height: 1,
    },
    Entry {
        form: Form::Terminal(53),
        nullable: false,
        first: 9007199254740992,
        goes_on: 0,
        opened: 0,
        rank: 0,
        height: 0,
    },
    Entry {
        form: Form::Terminal(54),
        nullable: false,
        first: 18014398509481984,
        goes_on: 0,
        opened: 0,
        rank: 0,
        height: 0,
    },
    Entry {
        form: Form::Repeat(283),
        nullable: true,
        first: 8444249301319680,
        goes_on: 8972015419523072,
        opened: 0,
        rank: 5,
        height: 0,
    },
    Entry {
        form: Form::Sequence(284, 55),
        nullable: false,
        first: 8444249301319680,
        goes_on: 527766118203392,
        opened: 0,
        rank: 4,
        height: 7,
    },
    Entry {
        form: Form::Choice(285, 286),
        nullable: false,
        first: 8444249301319680,
        goes_on: 0,
        opened: 0,
        rank: 3,
        height: 1,
    },
    Entry {
        form: Form::Terminal(49),
        nullable: false,
        first: 562949953421312,
        goes_on: 0,
        opened: 0,
        rank: 0,
        height: 0,
    },
    Entry {
        form: Form::Choice(240, 287),
        nullable: false,
        first: 7881299347898368,
        goes_on: 0,
        opened: 0,
        rank: 2,
        height: 1,
    },
    Entry {
        form: Form::Choice(288, 289),
        nullable: false,
        first: 6755399441055744,
        goes_on: 0,
        opened: 0,
        rank: 1,
        height: 1,
    },
    Entry {
        form: Form::Terminal(51),
        nullable: false,
        first: 2251799813685248,
        goes_on: 0,
        opened: 0,
        rank: 0,
        height: 0,
    },
    Entry {
        form: Form::Terminal(52),
        nullable: false,
        first: 4503599627370496,
        goes_on: 0,
        opened: 0,
        rank: 0,
        height: 0,
    },
    Entry {
        form: Form::Repeat(291),
        nullable: true,
        first: 422212465065984,
        goes_on: 527766118203392,
        opened: 0,
        rank: 3,
        height: 0,
    },
    Entry {
        form: Form::Sequence(292, 56),
        nullable: false,
        first: 422212465065984,
        goes_on: 105553653137408,
        opened: 0,
        rank: 2,
        height: 6,
    },
    Entry {
        form: Form::Choice(293, 294),
        nullable: false,
        first: 422212465065984,
        goes_on: 0,
        opened: 0,
        rank: 1,
        height: 1,
    },
    Entry {
        form: Form::Terminal(47),
        nullable: false,
        first: 140737488355328,
        goes_on: 0,
        opened: 0,
        rank: 0,
        height: 0,
    },
    Entry {
        form: Form::Terminal(48),
        nullable: false,
        first: 281474976710656,
        goes_on: 0,
        opened: 0,
        rank: 0,
        height: 0,
    },
    Entry {
        form: Form::Repeat(296),
        nullable: true,
        first: 105553116266496,
        goes_on: 105553653137408,
        opened: 0,
        rank: 3,
        height: 0,
    },
    Entry {
        form: Form::Sequence(297, 57),
        nullable: false,
        first: 105553116266496,
        goes_on: 536870912,
        opened: 0,
        rank: 2,
        height: 5,
    },
    Entry {
        form: Form::Choice(298, 299),
        nullable: false,
        first: 105553116266496,
        goes_on: 0,
        opened: 0,
        rank: 1,
        height: 1,
    },
    Entry {
        form: Form::Terminal(45),
        nullable: false,
        first: 35184372088832,
        goes_on: 0,
        opened: 0,
        rank: 0,
        height: 0,
    },
    Entry {
        form: Form::Terminal(46),
        nullable: false,
        first: 70368744177664,
        goes_on: 0,
        opened: 0,
        rank: 0,
        height: 0,
    },
    Entry {
        form: Form::Sequence(46, 57),
        nullable: false,
        first: 35046933135360,
        goes_on: 536870912,
        opened: 0,
        rank: 8,
        height: 5,
    },
    Entry {
        form: Form::Choice(60, 65),
        nullable: false,
        first: 432345581407436800,
        goes_on: 536870912,
        opened: 0,
        rank: 3,
        height: 2,
    },
    Entry {
        form: Form::Sequence(47, 153),
        nullable: false,
        first: 432380628348960768,
        goes_on: 0,
        opened: 0,
        rank: 20,
        height: 15,
    },
    Entry {
        form: Form::Sequence(47, 304),
        nullable: false,
        first: 432380628348960768,
        goes_on: 0,
        opened: 0,
        rank: 20,
        height: 15,
    },
    Entry {
        form: Form::Sequence(305, 244),
        nullable: false,
        first: 51573161984,
        goes_on: 0,
        opened: 0,
        rank: 4,
        height: 2,
    },
    Entry {
        form: Form::Choice(306, 61),
        nullable: true,
        first: 17213423616,
        goes_on: 144109227231674368,
        opened: 0,
        rank: 3,
        height: 1,
    },
    Entry {
        form: Form::Repeat(307),
        nullable: true,
        first: 33554432,
        goes_on: 144109210051805184,
        opened: 0,
        rank: 2,
        height: 0,
    },
    Entry {
        form: Form::Sequence(156, 47),
        nullable: false,
        first: 33554432,
        goes_on: 144109210018250752,
        opened: 0,
        rank: 1,
        height: 15,
    },
    Entry {
        form: Form::Sequence(62, 244),
        nullable: false,
        first: 432380628348960768,
        goes_on: 0,
        opened: 0,
        rank: 21,
        height: 16,
    },
    Entry {
        form: Form::Sequence(218, 47),
        nullable: false,
        first: 2147483648,
        goes_on: 144109210018250752,
        opened: 0,
        rank: 1,
        height: 15,
    },
    Entry {
        form: Form::Sequence(47, 311),
        nullable: false,
        first: 432380628348960768,
        goes_on: 0,
        opened: 0,
        rank: 20,
        height: 15,
    },
    Entry {
        form: Form::Sequence(312, 181),
        nullable: false,
        first: 3221225472,
        goes_on: 0,
        opened: 0,
        rank: 3,
        height: 2,
    },
    Entry {
        form: Form::Choice(309, 145),
        nullable: true,
        first: 2147483648,
        goes_on: 144109212165734400,
        opened: 0,
        rank: 2,
        height: 1,
    },
    Entry {
        form: Form::Terminal(58),
        nullable: false,
        first: 288230376151711744,
        goes_on: 0,
        opened: 0,
        rank: 0,
        height: 0,
    },
    Entry {
        form: Form::Sequence(142, 247),
        nullable: false,
        first: 144115188075855872,
        goes_on: 536870912,
        opened: 0,
        rank: 1,
        height: 2,
    },
    Entry {
        form: Form::Choice(316, 145),
        nullable: true,
        first: 68719476736,
        goes_on: 144109210018250752,
        opened: 0,
        rank: 2,
        height: 1,
    },
    Entry {
        form: Form::Sequence(264, 82),
        nullable: false,
        first: 68719476736,
        goes_on: 144109210018250752,
        opened: 0,
        rank: 1,
        height: 18,
    },
    Entry {
        form: Form::Repeat(318),
        nullable: true,
        first: 72057594037927936,
        goes_on: 144109141298774016,
        opened: 0,
        rank: 2,
        height: 0,
    },
    Entry {
        form: Form::Sequence(267, 68),
        nullable: false,
        first: 72057594037927936,
        goes_on: 72051547260846080,
        opened: 0,
        rank: 1,
        height: 14,
    },
    Entry {
        form: Form::Repeat(320),
        nullable: true,
        first: 36028797018963968,
        goes_on: 72051547260846080,
        opened: 0,
        rank: 2,
        height: 0,
    },
    Entry {
        form: Form::Sequence(270, 69),
        nullable: false,
        first: 36028797018963968,
        goes_on: 36022750241882112,
        opened: 0,
        rank: 1,
        height: 13,
    },
    Entry {
        form: Form::Repeat(322),
        nullable: true,
        first: 2199023255552,
        goes_on: 36022750241882112,
        opened: 0,
        rank: 2,
        height: 0,
    },
    Entry {
        form: Form::Sequence(256, 70),
        nullable: false,
        first: 2199023255552,
        goes_on: 36020551218626560,
        opened: 0,
        rank: 1,
        height: 12,
    },
    Entry {
        form: Form::Repeat(324),
        nullable: true,
        first: 26388279066624,
        goes_on: 36020551218626560,
        opened: 0,
        rank: 3,
        height: 0,
    },
    Entry {
        form: Form::Sequence(259, 71),
        nullable: false,
        first: 26388279066624,
        goes_on: 35994162939559936,
        opened: 0,
        rank: 2,
        height: 11,
    },
    Entry {
        form: Form::Repeat(326),
        nullable: true,
        first: 549755813888,
        goes_on: 35994162939559936,
        opened: 0,
        rank: 2,
        height: 0,
    },
    Entry {
        form: Form::Sequence(252, 72),
        nullable: false,
        first: 549755813888,
        goes_on: 35993613183746048,
        opened: 0,
        rank: 1,
        height: 10,
    },
    Entry {
        form: Form::Repeat(328),
        nullable: true,
        first: 27021597764222976,
        goes_on: 35993613183746048,
        opened: 0,
        rank: 3,
        height: 0,
    },
    Entry {
        form: Form::Sequence(279, 73),
        nullable: false,
        first: 27021597764222976,
        goes_on: 8972015419523072,
        opened: 0,
        rank: 2,
        height: 9,
    },
    Entry {
        form: Form::Repeat(330),
        nullable: true,
        first: 8444249301319680,
        goes_on: 8972015419523072,
        opened: 0,
        rank: 5,
        height: 0,
    },
    Entry {
        form: Form::Sequence(284, 74),
        nullable: false,
        first: 8444249301319680,
        goes_on: 527766118203392,
        opened: 0,
        rank: 4,
        height: 8,
    },
    Entry {
        form: Form::Repeat(332),
        nullable: true,
        first: 422212465065984,
        goes_on: 527766118203392,
        opened: 0,
        rank: 3,
        height: 0,
    },
    Entry {
        form: Form::Sequence(292, 75),
        nullable: false,
        first: 422212465065984,
        goes_on: 105553653137408,
        opened: 0,
        rank: 2,
        height: 7,
    },
    Entry {
        form: Form::Repeat(334),
        nullable: true,
        first: 105553116266496,
        goes_on: 105553653137408,
        opened: 0,
        rank: 3,
        height: 0,
    },
    Entry {
        form: Form::Sequence(297, 76),
        nullable: false,
        first: 105553116266496,
        goes_on: 536870912,
        opened: 0,
        rank: 2,
        height: 6,
    },
    Entry {
        form: Form::Sequence(46, 76),
        nullable: false,
        first: 35046933135360,
        goes_on: 536870912,
        opened: 0,
        rank: 8,
        height: 6,
    },
    Entry {
        form: Form::Choice(79, 84),
        nullable: false,
        first: 1008806333710860288,
        goes_on: 536870912,
        opened: 0,
        rank: 3,
        height: 3,
    },
    Entry {
        form: Form::Sequence(66, 153),
        nullable: false,
        first: 1008841380652384256,
        goes_on: 0,
        opened: 0,
        rank: 20,
        height: 16,
    },
    Entry {
        form: Form::Sequence(66, 339),
        nullable: false,
        first: 1008841380652384256,
        goes_on: 0,
        opened: 0,
        rank: 20,
        height: 16,
    },
    Entry {
        form: Form::Sequence(340, 244),
        nullable: false,
        first: 51573161984,
        goes_on: 0,
        opened: 0,
        rank: 4,
        height: 2,
    },
    Entry {
        form: Form::Choice(341, 80),
        nullable: true,
        first: 17213423616,
        goes_on: 144109227231674368,
        opened: 0,
        rank: 3,
        height: 1,
    },
    Entry {
        form: Form::Repeat(342),
        nullable: true,
        first: 33554432,
        goes_on: 144109210051805184,
        opened: 0,
        rank: 2,
        height: 0,
    },
    Entry {
        form: Form::Sequence(156, 66),
        nullable: false,
        first: 33554432,
        goes_on: 144109210018250752,
        opened: 0,
        rank: 1,
        height: 16,
    },
    Entry {
        form: Form::Sequence(81, 244),
        nullable: false,
        first: 1008841380652384256,
        goes_on: 0,
        opened: 0,
        rank: 21,
        height: 17,
    },
    Entry {
        form: Form::Sequence(218, 66),
        nullable: false,
        first: 2147483648,
        goes_on: 144109210018250752,
        opened: 0,
        rank: 1,
        height: 16,
    },
    Entry {
        form: Form::Sequence(66, 346),
        nullable: false,
        first: 1008841380652384256,
        goes_on: 0,
        opened: 0,
        rank: 20,
        height: 16,
    },
    Entry {
        form: Form::Sequence(347, 181),
        nullable: false,
        first: 3221225472,
        goes_on: 0,
        opened: 0,
        rank: 3,
        height: 2,
    },
    Entry {
        form: Form::Choice(344, 145),
        nullable: true,
        first: 2147483648,
        goes_on: 144109212165734400,
        opened: 0,
        rank: 2,
        height: 1,
    },
    Entry {
        form: Form::Choice(313, 349),
        nullable: false,
        first: 864691128455135232,
        goes_on: 0,
        opened: 0,
        rank: 1,
        height: 1,
    },
    Entry {
        form: Form::Terminal(59),
        nullable: false,
        first: 576460752303423488,
        goes_on: 0,
        opened: 0,
        rank: 0,
        height: 0,
    },
    Entry {
        form: Form::Sequence(142, 351),
        nullable: false,
        first: 144115188075855872,
        goes_on: 536870912,
        opened: 0,
        rank: 1,
        height: 2,
    },
    Entry {
        form: Form::Choice(83, 145),
        nullable: true,
        first: 536870912,
        goes_on: 536870912,
        opened: 0,
        rank: 2,
        height: 1,
    },
    Entry {
        form: Form::Choice(353, 145),
        nullable: true,
        first: 68719476736,
        goes_on: 144109209481379840,
        opened: 0,
        rank: 2,
        height: 1,
    },
    Entry {
        form: Form::Sequence(264, 101),
        nullable: false,
        first: 68719476736,
        goes_on: 144109209481379840,
        opened: 0,
        rank: 1,
        height: 16,
    },
    Entry {
        form: Form::Repeat(355),
        nullable: true,
        first: 72057594037927936,
        goes_on: 144109140761903104,
        opened: 0,
        rank: 2,
        height: 0,
    },
    Entry {
        form: Form::Sequence(267, 87),
        nullable: false,
        first: 72057594037927936,
        goes_on: 72051546723975168,
        opened: 0,
        rank: 1,
        height: 12,
    },
    Entry {
        form: Form::Repeat(357),
        nullable: true,
        first: 36028797018963968,
        goes_on: 72051546723975168,
        opened: 0,
        rank: 2,
        height: 0,
    },
    Entry {
        form: Form::Sequence(270, 88),
        nullable: false,
        first: 36028797018963968,
        goes_on: 36022749705011200,
        opened: 0,
        rank: 1,
        height: 11,
    },
    Entry {
        form: Form::Repeat(359),
        nullable: true,
        first: 2199023255552,
        goes_on: 36022749705011200,
        opened: 0,
        rank: 2,
        height: 0,
    },
    Entry {
        form: Form::Sequence(256, 89),
        nullable: false,
        first: 2199023255552,
        goes_on: 36020550681755648,
        opened: 0,
        rank: 1,
        height: 10,
    },
    Entry {
        form: Form::Repeat(361),
        nullable: true,
        first: 26388279066624,
        goes_on: 36020550681755648,
        opened: 0,
        rank: 3,
        height: 0,
    },
    Entry {
        form: Form::Sequence(259, 90),
        nullable: false,
        first: 26388279066624,
        goes_on: 35994162402689024,
        opened: 0,
        rank: 2,
        height: 9,
    },
    Entry {
        form: Form::Repeat(363),
        nullable: true,
        first: 549755813888,
        goes_on: 35994162402689024,
        opened: 0,
        rank: 2,
        height: 0,
    },
    Entry {
        form: Form::Sequence(252, 91),
        nullable: false,
        first: 549755813888,
        goes_on: 35993612646875136,
        opened: 0,
        rank: 1,
        height: 8,
    },
    Entry {
        form: Form::Repeat(365),
        nullable: true,
        first: 27021597764222976,
        goes_on: 35993612646875136,
        opened: 0,
        rank: 3,
        height: 0,
    },
    Entry {
        form: Form::Sequence(279, 92),
        nullable: false,
        first: 27021597764222976,
        goes_on: 8972014882652160,
        opened: 0,
        rank: 2,
        height: 7,
    },
    Entry {
        form: Form::Repeat(367),
        nullable: true,
        first: 8444249301319680,
        goes_on: 8972014882652160,
        opened: 0,
        rank: 5,
        height: 0,
    },
    Entry {
        form: Form::Sequence(284, 93),
        nullable: false,
        first: 8444249301319680,
        goes_on: 527765581332480,
        opened: 0,
        rank: 4,
        height: 6,
    },
    Entry {
        form: Form::Repeat(369),
        nullable: true,
        first: 422212465065984,
        goes_on: 527765581332480,
        opened: 0,
        rank: 3,
        height: 0,
    },
    Entry {
        form: Form::Sequence(292, 94),
        nullable: false,
        first: 422212465065984,
        goes_on: 105553116266496,
        opened: 0,
        rank: 2,
        height: 5,
    },
    Entry {
        form: Form::Repeat(371),
        nullable: true,
        first: 105553116266496,
        goes_on: 105553116266496,
        opened: 0,
        rank: 3,
        height: 0,
    },
    Entry {
        form: Form::Sequence(297, 95),
        nullable: false,
        first: 105553116266496,
        goes_on: 0,
        opened: 0,
        rank: 2,
        height: 4,
    },
    Entry {
        form: Form::Sequence(46, 95),
        nullable: false,
        first: 35046933135360,
        goes_on: 0,
        opened: 0,
        rank: 8,
        height: 4,
    },
    Entry {
        form: Form::Choice(98, 103),
        nullable: false,
        first: 288230393331580928,
        goes_on: 0,
        opened: 0,
        rank: 2,
        height: 1,
    },
    Entry {
        form: Form::Sequence(85, 153),
        nullable: false,
        first: 288265440273104896,
        goes_on: 0,
        opened: 0,
        rank: 20,
        height: 14,
    },
    Entry {
        form: Form::Sequence(85, 376),
        nullable: false,
        first: 288265440273104896,
        goes_on: 0,
        opened: 0,
        rank: 20,
        height: 14,
    },
    Entry {
        form: Form::Sequence(377, 244),
        nullable: false,
        first: 51573161984,
        goes_on: 0,
        opened: 0,
        rank: 4,
        height: 2,
    },
    Entry {
        form: Form::Choice(378, 99),
        nullable: true,
        first: 17213423616,
        goes_on: 144109226694803456,
        opened: 0,
        rank: 3,
        height: 1,
    },
    Entry {
        form: Form::Repeat(379),
        nullable: true,
        first: 33554432,
        goes_on: 144109209514934272,
        opened: 0,
        rank: 2,
        height: 0,
    },
    Entry {
        form: Form::Sequence(156, 85),
        nullable: false,
        first: 33554432,
        goes_on: 144109209481379840,
        opened: 0,
        rank: 1,
        height: 14,
    },
    Entry {
        form: Form::Sequence(100, 244),
        nullable: false,
        first: 288265440273104896,
        goes_on: 0,
        opened: 0,
        rank: 21,
        height: 15,
    },
    Entry {
        form: Form::Sequence(218, 85),
        nullable: false,
        first: 2147483648,
        goes_on: 144109209481379840,
        opened: 0,
        rank: 1,
        height: 14,
    },
    Entry {
        form: Form::Sequence(85, 383),
        nullable: false,
        first: 288265440273104896,
        goes_on: 0,
        opened: 0,
        rank: 20,
        height: 14,
    },
    Entry {
        form: Form::Sequence(384, 181),
        nullable: false,
        first: 3221225472,
        goes_on: 0,
        opened: 0,
        rank: 3,
        height: 2,
    },
    Entry {
        form: Form::Choice(381, 145),
        nullable: true,
        first: 2147483648,
        goes_on: 144109211628863488,
        opened: 0,
        rank: 2,
        height: 1,
    },
    Entry {
        form: Form::Sequence(106, 244),
        nullable: false,
        first: 432345581407436800,
        goes_on: 0,
        opened: 0,
        rank: 5,
        height: 4,
    },
    Entry {
        form: Form::Repeat(387),
        nullable: true,
        first: 33554432,
        goes_on: 570425344,
        opened: 0,
        rank: 2,
        height: 0,
    },
    Entry {
        form: Form::Sequence(156, 104),
        nullable: false,
        first: 33554432,
        goes_on: 536870912,
        opened: 0,
        rank: 1,
        height: 3,
    },
    Entry {
        form: Form::Sequence(142, 389),
        nullable: false,
        first: 144115188075855872,
        goes_on: 536870912,
        opened: 0,
        rank: 1,
        height: 2,
    },
    Entry {
        form: Form::Choice(102, 145),
        nullable: true,
        first: 536870912,
        goes_on: 536870912,
        opened: 0,
        rank: 2,
        height: 1,
    },
    Entry {
        form: Form::Choice(109, 391),
        nullable: false,
        first: 144115188075856400,
        goes_on: 0,
        opened: 0,
        rank: 3,
        height: 7,
    },
    Entry {
        form: Form::Choice(112, 115),
        nullable: false,
        first: 144115188075856384,
        goes_on: 0,
        opened: 0,
        rank: 2,
        height: 9,
    },
    Entry {
        form: Form::Sequence(160, 393),
        nullable: false,
        first: 144115188612726784,
        goes_on: 0,
        opened: 0,
        rank: 4,
        height: 5,
    },
    Entry {
        form: Form::Sequence(110, 148),
        nullable: false,
        first: 144115188075855872,
        goes_on: 0,
        opened: 0,
        rank: 3,
        height: 4,
    },
    Entry {
        form: Form::Repeat(395),
        nullable: true,
        first: 33554432,
        goes_on: 144109210320240640,
        opened: 0,
        rank: 2,
        height: 0,
    },
    Entry {
        form: Form::Sequence(156, 111),
        nullable: false,
        first: 33554432,
        goes_on: 144109210286686208,
        opened: 0,
        rank: 1,
        height: 3,
    },
    Entry {
        form: Form::Choice(161, 145),
        nullable: true,
        first: 268435456,
        goes_on: 144109210286686208,
        opened: 0,
        rank: 2,
        height: 1,
    },
    Entry {
        form: Form::Terminal(9),
        nullable: false,
        first: 512,
        goes_on: 0,
        opened: 0,
        rank: 0,
        height: 0,
    },
    Entry {
        form: Form::Sequence(113, 148),
        nullable: false,
        first: 144115205255725056,
        goes_on: 0,
        opened: 0,
        rank: 5,
        height: 18,
    },
    Entry {
        form: Form::Repeat(400),
        nullable: true,
        first: 33554432,
        goes_on: 144109210051805184,
        opened: 0,
        rank: 2,
        height: 0,
    },
    Entry {
        form: Form::Sequence(156, 114),
        nullable: false,
        first: 33554432,
        goes_on: 144109210018250752,
        opened: 0,
        rank: 1,
        height: 17,
    },
    Entry {
        form: Form::Sequence(402, 403),
        nullable: false,
        first: 144115188080050176,
        goes_on: 0,
        opened: 0,
        rank: 4,
        height: 7,
    },
    Entry {
        form: Form::Choice(22, 145),
        nullable: true,
        first: 4194304,
        goes_on: 4194304,
        opened: 0,
        rank: 2,
        height: 1,
    },
    Entry {
        form: Form::Sequence(116, 148),
        nullable: false,
        first: 144115188075855872,
        goes_on: 0,
        opened: 0,
        rank: 3,
        height: 6,
    },
    Entry {
        form: Form::Repeat(405),
        nullable: true,
        first: 33554432,
        goes_on: 33554432,
        opened: 0,
        rank: 2,
        height: 0,
    },
    Entry {
        form: Form::Sequence(156, 117),
        nullable: false,
        first: 33554432,
        goes_on: 0,
        opened: 0,
        rank: 1,
        height: 5,
    },
    Entry {
        form: Form::Sequence(151, 407),
        nullable: false,
        first: 8388608,
        goes_on: 0,
        opened: 0,
        rank: 1,
        height: 3,
    },
    Entry {
        form: Form::Sequence(408, 153),
        nullable: false,
        first: 432380628499955712,
        goes_on: 0,
        opened: 0,
        rank: 23,
        height: 2,
    },
    Entry {
        form: Form::Choice(118, 145),
        nullable: true,
        first: 432380628483178496,
        goes_on: 576460701476847616,
        opened: 0,
        rank: 22,
        height: 1,
    },
    Entry {
        form: Form::Repeat(410),
        nullable: true,
        first: 33554432,
        goes_on: 33554432,
        opened: 0,
        rank: 2,
        height: 0,
    },
    Entry {
        form: Form::Sequence(156, 120),
        nullable: false,
        first: 33554432,
        goes_on: 0,
        opened: 0,
        rank: 1,
        height: 6,
    },
    Entry {
        form: Form::Terminal(27),
        nullable: false,
        first: 134217728,
        goes_on: 0,
        opened: 0,
        rank: 0,
        height: 0,
    },
    Entry {
        form: Form::Sequence(142, 413),
        nullable: false,
        first: 144115188075855872,
        goes_on: 0,
        opened: 0,
        rank: 1,
        height: 4,
    },
    Entry {
        form: Form::Sequence(151, 414),
        nullable: false,
        first: 8388608,
        goes_on: 0,
        opened: 0,
        rank: 1,
        height: 3,
    },
    Entry {
        form: Form::Sequence(415, 153),
        nullable: false,
        first: 432380628365737984,
        goes_on: 0,
        opened: 0,
        rank: 21,
        height: 2,
    },
    Entry {
        form: Form::Choice(47, 145),
        nullable: true,
        first: 432380628348960768,
        goes_on: 576460701309075456,
        opened: 0,
        rank: 20,
        height: 1,
    },
    Entry {
        form: Form::Choice(122, 417),
        nullable: false,
        first: 144115188075856400,
        goes_on: 0,
        opened: 0,
        rank: 3,
        height: 7,
    },
    Entry {
        form: Form::Choice(125, 128),
        nullable: false,
        first: 144115188075856384,
        goes_on: 0,
        opened: 0,
        rank: 2,
        height: 8,
    },
    Entry {
        form: Form::Sequence(160, 419),
        nullable: false,
        first: 144115188612726784,
        goes_on: 0,
        opened: 0,
        rank: 4,
        height: 5,
    },
    Entry {
        form: Form::Sequence(123, 148),
        nullable: false,
        first: 144115188075855872,
        goes_on: 0,
        opened: 0,
        rank: 3,
        height: 4,
    },
    Entry {
        form: Form::Repeat(421),
        nullable: true,
        first: 33554432,
        goes_on: 838860800,
        opened: 0,
        rank: 2,
        height: 0,
    },
    Entry {
        form: Form::Sequence(156, 124),
        nullable: false,
        first: 33554432,
        goes_on: 805306368,
        opened: 0,
        rank: 1,
        height: 3,
    },
    Entry {
        form: Form::Choice(423, 145),
        nullable: true,
        first: 268435456,
        goes_on: 805306368,
        opened: 0,
        rank: 2,
        height: 1,
    },
    Entry {
        form: Form::Sequence(162, 104),
        nullable: false,
        first: 268435456,
        goes_on: 536870912,
        opened: 0,
        rank: 1,
        height: 3,
    },
    Entry {
        form: Form::Sequence(126, 148),
        nullable: false,
        first: 144115205255725056,
        goes_on: 0,
        opened: 0,
        rank: 5,
        height: 6,
    },
    Entry {
        form: Form::Repeat(426),
        nullable: true,
        first: 33554432,
        goes_on: 570425344,
        opened: 0,
        rank: 2,
        height: 0,
    },
    Entry {
        form: Form::Sequence(156, 127),
        nullable: false,
        first: 33554432,
        goes_on: 536870912,
        opened: 0,
        rank: 1,
        height: 5,
    },
    Entry {
        form: Form::Sequence(402, 428),
        nullable: false,
        first: 144115188080050176,
        goes_on: 0,
        opened: 0,
        rank: 4,
        height: 7,
    },
    Entry {
        form: Form::Sequence(129, 148),
        nullable: false,
        first: 144115188075855872,
        goes_on: 0,
        opened: 0,
        rank: 3,
        height: 6,
    },
    Entry {
        form: Form::Repeat(430),
        nullable: true,
        first: 33554432,
        goes_on: 33554432,
        opened: 0,
        rank: 2,
        height: 0,
    },
    Entry {
        form: Form::Sequence(156, 130),
        nullable: false,
        first: 33554432,
        goes_on: 0,
        opened: 0,
        rank: 1,
        height: 5,
    },
    Entry {
        form: Form::Sequence(151, 432),
        nullable: false,
        first: 8388608,
        goes_on: 0,
        opened: 0,
        rank: 1,
        height: 3,
    },
    Entry {
        form: Form::Sequence(433, 153),
        nullable: false,
        first: 432345581558431744,
        goes_on: 0,
        opened: 0,
        rank: 7,
        height: 2,
    },
    Entry {
        form: Form::Choice(131, 145),
        nullable: true,
        first: 432345581541654528,
        goes_on: 432345582112079872,
        opened: 0,
        rank: 6,
        height: 1,
    },
    Entry {
        form: Form::Repeat(435),
        nullable: true,
        first: 33554432,
        goes_on: 33554432,
        opened: 0,
        rank: 2,
        height: 0,
    },
    Entry {
        form: Form::Sequence(156, 133),
        nullable: false,
        first: 33554432,
        goes_on: 0,
        opened: 0,
        rank: 1,
        height: 6,
    },
    Entry {
        form: Form::Sequence(142, 437),
        nullable: false,
        first: 144115188075855872,
        goes_on: 0,
        opened: 0,
        rank: 1,
        height: 4,
    },
    Entry {
        form: Form::Sequence(151, 438),
        nullable: false,
        first: 8388608,
        goes_on: 0,
        opened: 0,
        rank: 1,
        height: 3,
    },
    Entry {
        form: Form::Sequence(439, 153),
        nullable: false,
        first: 432345581424214016,
        goes_on: 0,
        opened: 0,
        rank: 5,
        height: 2,
    },
    Entry {
        form: Form::Choice(104, 145),
        nullable: true,
        first: 432345581407436800,
        goes_on: 432345581944307712,
        opened: 0,
        rank: 4,
        height: 1,
    },
];
