//! Pairs of a print format and a scan format, and what goes there and back.
use sf_base::Value;
use sf_format::Profile;
use sf_pair::PairWhy;

/// A print format, a scan format, and the place and reason of the fault, where they are no pair.
pub type PairRow = (
    Profile,
    &'static [u8],
    &'static [u8],
    Option<(u16, PairWhy)>,
);

static PAIRS: [PairRow; 41] = [
    (Profile::One, b"%d%+d;", b"%3d%4d;", None),
    (Profile::One, b"%02u%u;", b"%2u%2u;", None),
    (Profile::One, b"%#x,", b"%1x,", None),
    (Profile::One, b"%02xx", b"%4xx", None),
    (Profile::One, b"%s", b"%3c", None),
    (Profile::One, b"%5d;", b"%7d;", None),
    (Profile::One, b"%05d%03u", b"%5d%3u", None),
    (Profile::One, b"%d\n", b"%11d%*1[\n]", None),
    (Profile::One, b"%d,%s\n", b"%11d,%20s%*1[\n]", None),
    (Profile::One, b"%2$s %1$d%%", b"%2$9s %1$11d%%", None),
    (Profile::One, b"%xx", b"%4xx", Some((1, PairWhy::RunsOn))),
    (
        Profile::One,
        b"%u%u;",
        b"%2u%2u;",
        Some((1, PairWhy::RunsOn)),
    ),
    (
        Profile::One,
        b"%s%c;",
        b"%3s%c;",
        Some((1, PairWhy::RunsOn)),
    ),
    (
        Profile::One,
        b"%s %s;",
        b"%5s %5[^;];",
        Some((2, PairWhy::RunsOn)),
    ),
    (
        Profile::One,
        b"%d%200d;",
        b"%3d%200d;",
        Some((1, PairWhy::RunsOn)),
    ),
    (Profile::One, b"%d\n", b"%3d\n", Some((2, PairWhy::OpenEnd))),
    (Profile::One, b"% 05d", b"%5d", Some((1, PairWhy::OpenEnd))),
    (Profile::One, b"%d", b"%2d%n", Some((1, PairWhy::OpenEnd))),
    (
        Profile::One,
        b"%d;",
        b"%3d,",
        Some((2, PairWhy::NotAligned)),
    ),
    (
        Profile::One,
        b"%d;;",
        b"%3d;",
        Some((3, PairWhy::NotAligned)),
    ),
    (
        Profile::One,
        b"%d;",
        b"%3d %3d",
        Some((2, PairWhy::NotAligned)),
    ),
    (
        Profile::One,
        b"%d;",
        b"%3u;",
        Some((1, PairWhy::KindDiffers)),
    ),
    (
        Profile::One,
        b"%o;",
        b"%3x;",
        Some((1, PairWhy::KindDiffers)),
    ),
    (
        Profile::One,
        b"%2$d,%1$d;",
        b"%3d,%3d;",
        Some((1, PairWhy::NumberDiffers)),
    ),
    (
        Profile::One,
        b"%-5d;",
        b"%5d;",
        Some((1, PairWhy::BadFlagHere)),
    ),
    (
        Profile::One,
        b"%.2s;",
        b"%5s;",
        Some((1, PairWhy::BadFlagHere)),
    ),
    (
        Profile::One,
        b"%.0d;",
        b"%5d;",
        Some((1, PairWhy::BadFlagHere)),
    ),
    (Profile::One, b"%s", b"%s", Some((1, PairWhy::NoWidth))),
    (Profile::One, b"%05d", b"%3d", Some((1, PairWhy::TooNarrow))),
    (
        Profile::One,
        b"%05d;",
        b"%5i;",
        Some((1, PairWhy::LeadingZero)),
    ),
    (
        Profile::One,
        b"%d;",
        b"%n%3d;",
        Some((1, PairWhy::NotWritten)),
    ),
    (Profile::One, b"ab", b"ab", Some((0, PairWhy::NoValues))),
    (Profile::Two, b"%db", b"%11ib", Some((1, PairWhy::RunsOn))),
    (Profile::One, b"%db", b"%11ib", None),
    (Profile::Two, b"%dB", b"%11iB", Some((1, PairWhy::RunsOn))),
    (Profile::Two, b"%bb", b"%33bb", Some((1, PairWhy::RunsOn))),
    (Profile::Two, b"%02bb", b"%33bb", None),
    (Profile::Two, b"%b2", b"%33b2", None),
    (
        Profile::Two,
        b"%b;",
        b"%33u;",
        Some((1, PairWhy::KindDiffers)),
    ),
    (
        Profile::Two,
        b"%u;",
        b"%33b;",
        Some((1, PairWhy::KindDiffers)),
    ),
    (Profile::Two, b"%d,%b;", b"%11i,%33b;", None),
];

/// Every row of a pair.
pub fn pairs() -> &'static [PairRow] {
    &PAIRS
}

/// A pair of formats, values that fit, and their text.
pub type TripRow = (
    Profile,
    &'static [u8],
    &'static [u8],
    &'static [Value<'static>],
    &'static [u8],
);

static TRIPS: [TripRow; 12] = [
    (
        Profile::One,
        b"%05d%03u",
        b"%5d%3u",
        &[Value::I32(-42), Value::U32(7)],
        b"-0042007",
    ),
    (
        Profile::One,
        b"%02u%u;",
        b"%2u%2u;",
        &[Value::U32(7), Value::U32(42)],
        b"0742;",
    ),
    (Profile::One, b"%#x,", b"%1x,", &[Value::U32(0)], b"0,"),
    (Profile::One, b"%02xx", b"%4xx", &[Value::U32(5)], b"05x"),
    (Profile::One, b"%s", b"%3c", &[Value::Text(b"a b")], b"a b"),
    (Profile::One, b"%5d;", b"%7d;", &[Value::I32(42)], b"   42;"),
    (
        Profile::One,
        b"%d,%s\n",
        b"%11d,%20s%*1[\n]",
        &[Value::I32(7), Value::Text(b"ab")],
        b"7,ab\n",
    ),
    (
        Profile::One,
        b"%2$s %1$d%%",
        b"%2$9s %1$11d%%",
        &[Value::I32(-1), Value::Text(b"up")],
        b"up -1%",
    ),
    (Profile::Two, b"%b;", b"%32b;", &[Value::U32(5)], b"101;"),
    (Profile::Two, b"%#b;", b"%34b;", &[Value::U32(5)], b"0b101;"),
    (
        Profile::Two,
        b"%#010b;",
        b"%34b;",
        &[Value::U32(0)],
        b"0000000000;",
    ),
    (Profile::Two, b"%d,", b"%11i,", &[Value::I32(-3)], b"-3,"),
];

/// Values that are written and read back.
pub fn trips() -> &'static [TripRow] {
    &TRIPS
}

/// A pair of formats of the first profile, and values that don't fit.
pub type UnfitRow = (&'static [u8], &'static [u8], &'static [Value<'static>]);

static UNFIT: [UnfitRow; 6] = [
    (b"%02u%u;", b"%2u%2u;", &[Value::U32(100), Value::U32(1)]),
    (b"%#x,", b"%1x,", &[Value::U32(5)]),
    (b"%5d;", b"%7d;", &[Value::I32(42), Value::I32(1)]),
    (b"%5d;", b"%7d;", &[Value::U32(42)]),
    (b"%s\n;", b"%5s ;", &[Value::Text(b"a b")]),
    (b"%s", b"%3c", &[Value::Text(b"ab")]),
];

/// Values that don't fit a pair: too wide, too many, of another kind, or with white space in a text.
pub fn unfit() -> &'static [UnfitRow] {
    &UNFIT
}

/// A print format and a scan format that are no pair, and a value whose text runs on into the literal behind it.
pub type RunIntoRow = (&'static [u8], &'static [u8], Value<'static>);

static RUN_INTO: [RunIntoRow; 8] = [
    (b"%u5", b"%3u5", Value::U32(0)),
    (b"%o7", b"%4o7", Value::U32(0)),
    (b"%xx", b"%4xx", Value::U32(0)),
    (b"%#xa", b"%4xa", Value::U32(0)),
    (b"%+iX", b"%4iX", Value::I32(0)),
    (b"%i9", b"%4i9", Value::I32(1)),
    (b"%s;", b"%3s;", Value::Text(b";")),
    (b"%s,", b"%3[,;],", Value::Text(b",")),
];

/// Literals that are run into.
pub fn run_into() -> &'static [RunIntoRow] {
    &RUN_INTO
}

/// A pair of formats, and two values of its kind: the least and the greatest.
pub type BoundRow = (&'static [u8], &'static [u8], Value<'static>, Value<'static>);

static BOUNDS: [BoundRow; 31] = [
    (b"%hhd;", b"%4hhd;", Value::I8(i8::MIN), Value::I8(i8::MAX)),
    (
        b"%hd;",
        b"%6hd;",
        Value::I16(i16::MIN),
        Value::I16(i16::MAX),
    ),
    (b"%d;", b"%11d;", Value::I32(i32::MIN), Value::I32(i32::MAX)),
    (
        b"%ld;",
        b"%20ld;",
        Value::I64(i64::MIN),
        Value::I64(i64::MAX),
    ),
    (b"%hhi;", b"%4hhi;", Value::I8(i8::MIN), Value::I8(i8::MAX)),
    (
        b"%hi;",
        b"%6hi;",
        Value::I16(i16::MIN),
        Value::I16(i16::MAX),
    ),
    (
        b"%+i;",
        b"%11i;",
        Value::I32(i32::MIN),
        Value::I32(i32::MAX),
    ),
    (
        b"% lld;",
        b"%20lli;",
        Value::I64(i64::MIN),
        Value::I64(i64::MAX),
    ),
    (b"%hhu;", b"%3hhu;", Value::U8(0), Value::U8(u8::MAX)),
    (b"%hu;", b"%5hu;", Value::U16(0), Value::U16(u16::MAX)),
    (b"%u;", b"%10u;", Value::U32(0), Value::U32(u32::MAX)),
    (b"%lu;", b"%20lu;", Value::U64(0), Value::U64(u64::MAX)),
    (b"%hho;", b"%3hho;", Value::U8(0), Value::U8(u8::MAX)),
    (b"%ho;", b"%6ho;", Value::U16(0), Value::U16(u16::MAX)),
    (b"%#o;", b"%12o;", Value::U32(0), Value::U32(u32::MAX)),
    (b"%lo;", b"%22lo;", Value::U64(0), Value::U64(u64::MAX)),
    (b"%hhx;", b"%2hhx;", Value::U8(0), Value::U8(u8::MAX)),
    (b"%hx;", b"%4hX;", Value::U16(0), Value::U16(u16::MAX)),
    (b"%hhX;", b"%2hhx;", Value::U8(0), Value::U8(u8::MAX)),
    (b"%hX;", b"%4hx;", Value::U16(0), Value::U16(u16::MAX)),
    (b"%X;", b"%8x;", Value::U32(0), Value::U32(u32::MAX)),
    (b"%#x;", b"%10X;", Value::U32(0), Value::U32(u32::MAX)),
    (b"%lX;", b"%16lx;", Value::U64(0), Value::U64(u64::MAX)),
    (b"%02hhx", b"%2hhx", Value::U8(0), Value::U8(u8::MAX)),
    (b"%016lx", b"%16lx", Value::U64(0), Value::U64(u64::MAX)),
    (b"%010u", b"%10u", Value::U32(0), Value::U32(u32::MAX)),
    (b"%s", b"%1s", Value::Text(b"\x00"), Value::Text(b"\xff")),
    (b"%c", b"%c", Value::Text(b"\x00"), Value::Text(b"\xff")),
    (
        b"%s",
        b"%3c",
        Value::Text(b"\x00\x00\x00"),
        Value::Text(b"\xff\xff\xff"),
    ),
    (
        b"%s ;",
        b"%3s ;",
        Value::Text(b"\x00"),
        Value::Text(b"\xff\xff\xff"),
    ),
    (
        b"%s;",
        b"%3[^;];",
        Value::Text(b"\x00"),
        Value::Text(b"\xff\xff\xff"),
    ),
];

/// The bounds of each kind and letter.
pub fn bounds() -> &'static [BoundRow] {
    &BOUNDS
}
