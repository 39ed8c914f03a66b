//! Texts with their tokens, worked out by hand. A token is written as the letter of its kind and its bytes: W a word, X an
//! escaped name, N a number, T a text in quotes, M a mark, E an end.

use pe_base::Span;
use pe_text::{Class, Kind, Lang, LexFault, Token, cut, lex, part};
use std::alloc::Global;
use std::process::Abort;
use std::test::Fail;

type Row = (&'static [u8], &'static [u8]);

static VERILOG: [Row; 32] = [
    (b"", b""),
    (
        b"module m(a, \\b[0] , c);",
        b"Wmodule Wm M( Wa M, X\\b[0] M, Wc M) M;",
    ),
    (
        b"a<=b<c<<d<<<e>f>>g>>>h>=i",
        b"Wa M<= Wb M< Wc M<< Wd M<<< We M> Wf M>> Wg M>>> Wh M>= Wi",
    ),
    (b"=== == = !== != !", b"M=== M== M= M!== M!= M!"),
    (
        b"~& ~| ~^ ^~ ~ ^ && & || | ** * +: + -: - / %",
        b"M~& M~| M~^ M^~ M~ M^ M&& M& M|| M| M** M* M+: M+ M-: M- M/ M%",
    ),
    (b"()[]{},;:.@#?", b"M( M) M[ M] M{ M} M, M; M: M. M@ M# M?"),
    (b"&&&~^~<<<<", b"M&& M& M~^ M~ M<<< M<"),
    (
        b"4'b1x0 8'hFF_0z 'b1 12 1_000 1__0",
        b"N4'b1x0 N8'hFF_0z N'b1 N12 N1_000 N1 W__0",
    ),
    (
        b"4'sb0 'SHf 3'o7? 5'D1_9 1_2'hX",
        b"N4'sb0 N'SHf N3'o7? N5'D1_9 N1_2'hX",
    ),
    (
        b"4'b1_ 4'd1x 12ab 4 'b1",
        b"N4'b1 W_ N4'd1 Wx N12 Wab N4 N'b1",
    ),
    (b"4'b2", b"bad 1"),
    (b"4'b_1", b"bad 1"),
    (b"4'", b"bad 1"),
    (b"a$b_1 _c", b"Wa$b_1 W_c"),
    (b"a $b", b"bad 2"),
    (b"a\"b\"", b"bad 1"),
    (b"a // b\r c\nd//", b"Wa Wd"),
    (b"a/*b*/c/**/d/*/ */e/f", b"Wa Wc Wd We M/ Wf"),
    (b"a/* *", b"bad 1"),
    (b"/*/", b"bad 0"),
    (b"(* full *)a(**)b(* c **)d", b"Wa Wb Wd"),
    (b"@(*) (*)*)", b"M@ M( M* M) M( M* M) M* M)"),
    (b"@(* )", b"bad 1"),
    (b"a(*", b"bad 1"),
    (b"(* \")\" /* *)x", b"Wx"),
    (b"`timescale 1ns/1ps \"\nx `resetall", b"Wx"),
    (b"`define A `resetallx", b"M`define WA M`resetallx"),
    (b"a ` b", b"bad 2"),
    (b"\\a", b"bad 0"),
    (b"a\\ b", b"bad 1"),
    (b"\\a\x7f ", b"bad 0"),
    (b"\\a~\tb\x0b", b"bad 5"),
];

static UPF: [Row; 26] = [
    (
        b"create_pst T -supplies {A B}\n",
        b"Wcreate_pst WT W-supplies M{ WA WB M} E\n",
    ),
    (b"a;b", b"Wa E; Wb"),
    (b"a {b;c [d]\n e}\tf", b"Wa M{ Wb;c W[d] We M} Wf"),
    (b"a [b]", b"Wa M[ Wb]"),
    (b"# c \xc3\na", b"E\n Wa"),
    (b"a # b", b"Wa W# Wb"),
    (b"a;# b\n \t#c", b"Wa E; E\n"),
    (b"a \\\nb\\\nc\\d", b"Wa Wb Wc\\d"),
    (b"# a\\\nb", b"E\n Wb"),
    (b"\\\n#x", b""),
    (b"\"a b\"c\"\"", b"T\"a b\" Wc T\"\""),
    (b"\"a;\n#{\"", b"T\"a;\n#{\""),
    (b"a \"b", b"bad 2"),
    (b"a \"\xc3\"", b"bad 2"),
    (b"$a {$b}", b"M$ Wa M{ M$ Wb M}"),
    (b"}a;}\n{", b"M} Wa E; M} E\n M{"),
    (b"{{}\n}\n", b"M{ M{ M} M} E\n"),
    (b"\xc3", b"bad 0"),
    (b"a\xc3", b"bad 1"),
    (b"{a \x7f}", b"bad 3"),
    (b"-state{HV 1.0}", b"W-state M{ WHV W1.0 M}"),
    (b"a\r\nb", b"Wa\r E\n Wb"),
    (b"{#a\n#b}", b"M{ W#a W#b M}"),
    (b"a]#b", b"Wa]#b"),
    (b"{a\\\nb\\}", b"M{ Wa Wb\\ M}"),
    (b"a}#b\n#c", b"Wa M} W#b E\n"),
];

static LIBERTY: [Row; 22] = [
    (
        b"library (p) {\n a : b ;\n}\n",
        b"Wlibrary M( Wp M) M{ Wa M: Wb M; M}",
    ),
    (
        b"a : b\nc : \"d\" ,\n e",
        b"Wa M: Wb E\n Wc M: T\"d\" M, E\n We",
    ),
    (b"a :\nb\n\nc\n", b"Wa M: Wb E\n Wc"),
    (b"a (b\nc);\n", b"Wa M( Wb Wc M) M;"),
    (b"a : b ;\nc", b"Wa M: Wb M; Wc"),
    (b"a : b }\nc", b"Wa M: Wb M} Wc"),
    (b"a : f (x\n)\ny", b"Wa M: Wf M( Wx M) Wy"),
    (b"a : b {\nc", b"Wa M: Wb M{ Wc"),
    (b"a : /*\n*/ b /*\n*/ c \n", b"Wa M: Wb Wc E\n"),
    (b"a : \"x\ny\"\n", b"Wa M: T\"x\ny\" E\n"),
    (b"a : b \\\n c\n", b"Wa M: Wb Wc E\n"),
    (b"a/b/*c*/d", b"Wa/b Wd"),
    (b"a\\b \\\nc\\\nd", b"Wa\\b Wc Wd"),
    (b"\"\xc3\\\"\xc3 \x01", b"T\"\xc3\\\" W\xc3 W\x01"),
    (b"a \"b", b"bad 2"),
    (b"a /*", b"bad 2"),
    (b"/*/", b"bad 0"),
    (b":b\n:\n", b"M: Wb E\n M:"),
    (b"a:b:\nc\n", b"Wa M: Wb M: Wc E\n"),
    (b"a\x0cb\rc", b"Wa Wb Wc"),
    (b"a:,\nb\r\n", b"Wa M: M, Wb E\n"),
    (b"*/a", b"W*/a"),
];

static MAP: [Row; 5] = [
    (
        b"top R N\n# c\nreg a b inv\n",
        b"Wtop WR WN E\n E\n Wreg Wa Wb Winv E\n",
    ),
    (b"a#b\tc\n#", b"Wa E\n"),
    (b"a\r\n", b"Wa\r E\n"),
    (b"\xc3 \"x\" {\t;", b"W\xc3 W\"x\" W{ W;"),
    (b"", b""),
];

static LIBERTY_FUNCTION: [Row; 12] = [
    (b"A + B' C", b"WA M+ WB M' WC"),
    (
        b"A[3]*!(b_1|0)^1&c",
        b"WA[3] M* M! M( Wb_1 M| N0 M) M^ N1 M& Wc",
    ),
    (b"10 1A\n\t", b"N1 N0 N1 WA"),
    (b"1'b0", b"N1 M' Wb0"),
    (b"A[", b"bad 1"),
    (b"A[]", b"bad 1"),
    (b"A[12", b"bad 1"),
    (b"A[1x]", b"bad 1"),
    (b"A [1]", b"bad 2"),
    (b"A\r", b"bad 1"),
    (b"A~", b"bad 1"),
    (b"2", b"bad 0"),
];

static UPF_FUNCTION: [Row; 7] = [
    (b"a && !b||~c", b"Wa M&& M! Wb M|| M~ Wc"),
    (b"1'b0 1'b1 1 0(1'b01)", b"N1'b0 N1'b1 N1 N0 M( N1'b0 N1 M)"),
    (b"1 1'b2", b"bad 3"),
    (b"&&&|||", b"M&& M& M|| M|"),
    (b"iso[0]^x[12]", b"Wiso[0] M^ Wx[12]"),
    (b"a+b", b"bad 1"),
    (b"a'", b"bad 1"),
];

fn letter(kind: Kind) -> u8 {
    match kind {
        Kind::Word => b'W',
        Kind::Escaped => b'X',
        Kind::Number => b'N',
        Kind::Text => b'T',
        Kind::Mark => b'M',
        Kind::End => b'E',
    }
}

/// The bytes of a span, tested to be in range.
fn tested_part<'a>(rt: &impl Abort, text: &'a [u8], span: Span) -> &'a [u8] {
    assert!(rt; span.from < span.to);
    assert!(rt; span.to as usize <= text.len());
    part(text, span)
}

/// The tokens as the rows write them.
fn written(rt: &impl Abort, alloc: Global, text: &[u8], tokens: &[Token]) -> Result<Vec<u8>, Fail> {
    let mut line = Vec::new(alloc);
    for token in tokens {
        if !line.is_empty() {
            line.push(b' ')?;
        }
        line.push(letter(token.kind))?;
        line.extend_from_slice(tested_part(rt, text, token.span))?;
    }
    Ok(line)
}

/// What `cut` answers, as the rows write it.
fn answered(rt: &impl Abort, alloc: Global, class: Class, text: &[u8]) -> Result<Vec<u8>, Fail> {
    assert!(rt; text.len() <= 16_777_216);
    match cut(alloc, class, text) {
        Ok(tokens) => written(rt, alloc, text, tokens.as_slice()),
        Err(LexFault::Bad { at }) => {
            let line = format!(in alloc; "bad {at}")?;
            Ok(Vec::from_slice(alloc, line.as_bytes())?)
        }
        Err(fault) => Err(fault)?,
    }
}

/// Compares each row, and cuts each of its beginnings too.
fn expect_rows(rt: &impl Abort, alloc: Global, class: Class, rows: &[Row]) -> Result<(), Fail> {
    for (i, row) in rows.iter().enumerate() {
        let line = answered(rt, alloc, class, row.0)?;
        assert_eq!(rt; line.as_slice(), row.1, "row {i} of {class:?}");
        for end in 0..row.0.len() {
            answered(rt, alloc, class, &row.0[..end])?;
        }
    }
    Ok(())
}

#[test]
fn tokens_of_verilog(rt: HostRuntime) -> Result<(), Fail> {
    expect_rows(&rt, rt.alloc(), Class::Verilog, &VERILOG)
}

#[test]
fn tokens_of_upf(rt: HostRuntime) -> Result<(), Fail> {
    expect_rows(&rt, rt.alloc(), Class::Upf, &UPF)
}

#[test]
fn tokens_of_liberty(rt: HostRuntime) -> Result<(), Fail> {
    expect_rows(&rt, rt.alloc(), Class::Liberty, &LIBERTY)
}

#[test]
fn tokens_of_map_files_and_functions(rt: HostRuntime) -> Result<(), Fail> {
    expect_rows(&rt, rt.alloc(), Class::Map, &MAP)?;
    expect_rows(&rt, rt.alloc(), Class::LibertyFunction, &LIBERTY_FUNCTION)?;
    expect_rows(&rt, rt.alloc(), Class::UpfFunction, &UPF_FUNCTION)
}

/// The gaps between the tokens and their parts, one behind the other.
fn joined(rt: &impl Abort, alloc: Global, text: &[u8], tokens: &[Token]) -> Result<Vec<u8>, Fail> {
    let mut bytes = Vec::new(alloc);
    let mut end = 0;
    for token in tokens {
        let gap = Span {
            from: end,
            to: token.span.from,
        };
        if gap.from < gap.to {
            bytes.extend_from_slice(tested_part(rt, text, gap))?;
        }
        bytes.extend_from_slice(tested_part(rt, text, token.span))?;
        end = token.span.to;
    }
    assert!(rt; end as usize <= text.len());
    bytes.extend_from_slice(&text[end as usize..])?;
    Ok(bytes)
}

#[test]
fn parts_and_gaps_are_the_text(rt: HostRuntime) -> Result<(), Fail> {
    let alloc = rt.alloc();
    let text = b"# PD\nset_isolation I -domain PD \\\n  -elements {a b[0]}; \"x y\"\n";
    let tokens = lex(alloc, Lang::Upf, text)?;
    assert_eq!(rt; tokens.len(), 13);
    let bytes = joined(&rt, alloc, text, tokens.as_slice())?;
    assert_eq!(rt; bytes.as_slice(), text.as_slice());
    let languages = [
        (Lang::Rtl, 0),
        (Lang::Netlist, 0),
        (Lang::Upf, 1),
        (Lang::Liberty, 0),
        (Lang::Map, 1),
    ];
    for (language, count) in languages {
        assert_eq!(rt; lex(alloc, language, b"\n")?.len(), count);
    }
    Ok(())
}
