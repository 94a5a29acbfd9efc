//! Printed texts, and values that are refused.
use sf_base::Value;
use sf_format::Profile;
use sf_print::PrintFault;

/// A print format, values, and the text that is printed of them.
#[derive(Drop)]
pub struct PrintRow {
    pub profile: Profile,
    pub format: &'static [u8],
    pub values: &'static [Value<'static>],
    pub text: &'static [u8],
}

/// Each signed kind's least and greatest value.
const SIGNED: &[Value<'static>] = &[
    Value::I8(-128),
    Value::I8(127),
    Value::I16(-32768),
    Value::I16(32767),
    Value::I32(-2147483648),
    Value::I32(2147483647),
    Value::I64(-9223372036854775808),
    Value::I64(9223372036854775807),
];

/// Each unsigned kind's least and greatest value.
const UNSIGNED: &[Value<'static>] = &[
    Value::U8(0),
    Value::U8(255),
    Value::U16(0),
    Value::U16(65535),
    Value::U32(0),
    Value::U32(4294967295),
    Value::U64(0),
    Value::U64(18446744073709551615),
];

static PRINTS: [PrintRow; 30] = [
    PrintRow {
        profile: Profile::One,
        format: b"%hhd|%hhd|%hd|%hd|%d|%d|%lld|%lld",
        values: SIGNED,
        text: b"-128|127|-32768|32767|-2147483648|2147483647|-9223372036854775808|9223372036854775807",
    },
    PrintRow {
        profile: Profile::One,
        format: b"%+hhi|%+hhi|%+hi|%+hi|%+i|%+i|%+ji|%+zi",
        values: SIGNED,
        text: b"-128|+127|-32768|+32767|-2147483648|+2147483647|-9223372036854775808|+9223372036854775807",
    },
    PrintRow {
        profile: Profile::One,
        format: b"%hhu|%hhu|%hu|%hu|%u|%u|%llu|%llu",
        values: UNSIGNED,
        text: b"0|255|0|65535|0|4294967295|0|18446744073709551615",
    },
    PrintRow {
        profile: Profile::One,
        format: b"%hho|%hho|%ho|%ho|%o|%o|%lo|%to",
        values: UNSIGNED,
        text: b"0|377|0|177777|0|37777777777|0|1777777777777777777777",
    },
    PrintRow {
        profile: Profile::One,
        format: b"%hhx|%hhx|%hx|%hx|%x|%x|%llx|%llx",
        values: UNSIGNED,
        text: b"0|ff|0|ffff|0|ffffffff|0|ffffffffffffffff",
    },
    PrintRow {
        profile: Profile::One,
        format: b"%hhX|%hhX|%hX|%hX|%X|%X|%llX|%llX",
        values: UNSIGNED,
        text: b"0|FF|0|FFFF|0|FFFFFFFF|0|FFFFFFFFFFFFFFFF",
    },
    PrintRow {
        profile: Profile::One,
        format: b"%#hho|%#hho|%#ho|%#ho|%#o|%#o|%#llo|%#llo",
        values: UNSIGNED,
        text: b"0|0377|0|0177777|0|037777777777|0|01777777777777777777777",
    },
    PrintRow {
        profile: Profile::One,
        format: b"%#hhx|%#hhx|%#hx|%#hx|%#x|%#x|%#llx|%#llx",
        values: UNSIGNED,
        text: b"0|0xff|0|0xffff|0|0xffffffff|0|0xffffffffffffffff",
    },
    PrintRow {
        profile: Profile::One,
        format: b"%+5d|%-5d|",
        values: &[Value::I32(42), Value::I32(42)],
        text: b"  +42|42   |",
    },
    PrintRow {
        profile: Profile::One,
        format: b"[%.0d][%#o][%#x]",
        values: &[Value::I32(0), Value::U32(0), Value::U32(0)],
        text: b"[][0][0]",
    },
    PrintRow {
        profile: Profile::One,
        format: b"%08.3d",
        values: &[Value::I32(-5)],
        text: b"    -005",
    },
    PrintRow {
        profile: Profile::One,
        format: b"%#06x",
        values: &[Value::U32(255)],
        text: b"0x00ff",
    },
    PrintRow {
        profile: Profile::One,
        format: b"%.2s",
        values: &[Value::Text(b"abc")],
        text: b"ab",
    },
    PrintRow {
        profile: Profile::One,
        format: b"%+ d",
        values: &[Value::I32(5)],
        text: b"+5",
    },
    PrintRow {
        profile: Profile::One,
        format: b"% d",
        values: &[Value::I32(-3)],
        text: b"-3",
    },
    PrintRow {
        profile: Profile::One,
        format: b"%-05d|",
        values: &[Value::I32(42)],
        text: b"42   |",
    },
    PrintRow {
        profile: Profile::One,
        format: b"[%#.3o][%#.0x][%08d]",
        values: &[Value::U32(8), Value::U32(0), Value::I32(-42)],
        text: b"[010][][-0000042]",
    },
    PrintRow {
        profile: Profile::One,
        format: b"%2$s-%1$d",
        values: &[Value::I32(7), Value::Text(b"up")],
        text: b"up-7",
    },
    PrintRow {
        profile: Profile::One,
        format: b"[%6c][%-6c]",
        values: &[Value::Text(b"a"), Value::Text(b"b")],
        text: b"[     a][b     ]",
    },
    PrintRow {
        profile: Profile::One,
        format: b"[%6s][%-6.2s]",
        values: &[Value::Text(b"xy"), Value::Text(b"xyz")],
        text: b"[    xy][xy    ]",
    },
    PrintRow {
        profile: Profile::One,
        format: b"[%010u][%.12d][%-20.10d]",
        values: &[Value::U32(77), Value::I32(-9), Value::I32(9)],
        text: b"[0000000077][-000000000009][0000000009          ]",
    },
    PrintRow {
        profile: Profile::One,
        format: b"[%+.0d][%#.0o]100%%",
        values: &[Value::I32(0), Value::U32(0)],
        text: b"[+][0]100%",
    },
    PrintRow {
        profile: Profile::Two,
        format: b"%b",
        values: &[Value::U32(5)],
        text: b"101",
    },
    PrintRow {
        profile: Profile::Two,
        format: b"%#b",
        values: &[Value::U32(5)],
        text: b"0b101",
    },
    PrintRow {
        profile: Profile::Two,
        format: b"%#b",
        values: &[Value::U32(0)],
        text: b"0",
    },
    PrintRow {
        profile: Profile::Two,
        format: b"%#010b",
        values: &[Value::U32(5)],
        text: b"0b00000101",
    },
    PrintRow {
        profile: Profile::Two,
        format: b"%#.4b",
        values: &[Value::U32(5)],
        text: b"0b0101",
    },
    PrintRow {
        profile: Profile::Two,
        format: b"%.0b",
        values: &[Value::U32(0)],
        text: b"",
    },
    PrintRow {
        profile: Profile::Two,
        format: b"%-6hhb|",
        values: &[Value::U8(2)],
        text: b"10    |",
    },
    PrintRow {
        profile: Profile::Two,
        format: b"%jb",
        values: &[Value::U64(18446744073709551615)],
        text: b"1111111111111111111111111111111111111111111111111111111111111111",
    },
];

/// Every row of a print.
pub fn prints() -> &'static [PrintRow] {
    &PRINTS
}

/// A print format of the first profile, values that it doesn't print, and why.
pub type RefusedPrint = (&'static [u8], &'static [Value<'static>], PrintFault);

static REFUSED: [RefusedPrint; 7] = [
    (
        b"%d%c",
        &[Value::I32(1), Value::Text(b"ab")],
        PrintFault::NotOneByte { at: 2 },
    ),
    (
        b"%d%c",
        &[Value::Text(b"x"), Value::Text(b"ab")],
        PrintFault::WrongKind { at: 1 },
    ),
    (b"%d%c", &[Value::I32(1)], PrintFault::WrongCount),
    (
        b"%d",
        &[Value::Text(b"x"), Value::I32(1)],
        PrintFault::WrongCount,
    ),
    (
        b"%2$d%1$c",
        &[Value::Text(b""), Value::U32(1)],
        PrintFault::NotOneByte { at: 1 },
    ),
    (b"%hd", &[Value::I32(1)], PrintFault::WrongKind { at: 1 }),
    (b"%c", &[Value::U8(65)], PrintFault::WrongKind { at: 1 }),
];

/// Values that are refused.
pub fn refused_prints() -> &'static [RefusedPrint] {
    &REFUSED
}
