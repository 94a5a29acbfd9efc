//! Words that clap takes.
use sf_words::{LineOptions, Notes, Order, Output, Profile, read_words};
use std::alloc::Global;
use std::test::Fail;

/// Words, between which bars stand, and the order that they make.
static ORDERS: [(&str, &str); 118] = [
    ("show|%3d,%*s", "Show 1048576 |%3d,%*s"),
    ("scan|%d,%d", "Scan 1048576 |%d,%d"),
    ("scan|--limit|3|%s", "Scan 3 |%s"),
    ("scan|--limit=3|%s", "Scan 3 |%s"),
    ("scan|%s|--limit|3", "Scan 3 |%s"),
    ("scan|--limit|0|%s", "Scan 0 |%s"),
    ("scan|--limit|2147483647|%s", "Scan 2147483647 |%s"),
    ("scan|--limit|0000000000007|%s", "Scan 7 |%s"),
    ("scan|--line-buffered|%d", "Scan 1048576 line-buffered |%d"),
    (
        "scan|%d|--limit|9|--line-buffered",
        "Scan 9 line-buffered |%d",
    ),
    ("scan|--|--limit", "Scan 1048576 |--limit"),
    ("scan|", "Scan 1048576 |"),
    ("scan|a\\x00", "Scan 1048576 |a\\x00"),
    ("scan|-", "Scan 1048576 |-"),
    ("print|%d\\q|1", "Print 1048576 |%d\\q |1"),
    ("print|%s|a\\x00b", "Print 1048576 |%s |a\\x00b"),
    ("print|%hhu|--|-1", "Print 1048576 |%hhu |-1"),
    ("print|%hhu|--|-0", "Print 1048576 |%hhu |-0"),
    ("print|--|-%s-|--|-", "Print 1048576 |-%s- |-- |-"),
    ("print|%d", "Print 1048576 |%d"),
    ("print|%d%s%d|1|two|3", "Print 1048576 |%d%s%d |1 |two |3"),
    ("check|%xx|%4xx", "Check 1048576 |%xx |%4xx"),
    (
        "check|%d\\n|%11d%*1[\\n]",
        "Check 1048576 |%d\\n |%11d%*1[\\n]",
    ),
    ("copy|%+d;|%3d;", "Copy 1048576 |%+d; |%3d;"),
    (
        "copy|--limit|80|--line-buffered|%d;|%3d;",
        "Copy 80 line-buffered |%d; |%3d;",
    ),
    ("show|help", "Show 1048576 |help"),
    ("scan|--profile|1|%d", "Scan 1048576 |%d"),
    ("scan|--profile|2|%d", "Scan 1048576 profile-2 |%d"),
    ("scan|%d|--profile=02", "Scan 1048576 profile-2 |%d"),
    ("show|--profile|2|%d", "Show 1048576 profile-2 |%d"),
    (
        "print|--profile|2|--explain|%d|7",
        "Print 1048576 profile-2 explain |%d |7",
    ),
    ("print|%d|7|--explain", "Print 1048576 explain |%d |7"),
    ("check|--explain|%d|%3d", "Check 1048576 explain |%d |%3d"),
    (
        "copy|--limit|8|--line-buffered|--profile|2|--explain|%d;|%3d;",
        "Copy 8 line-buffered profile-2 explain |%d; |%3d;",
    ),
    ("show|--explain|%d", "Show 1048576 explain |%d"),
    (
        "scan|--explain|--|--explain",
        "Scan 1048576 explain |--explain",
    ),
    ("scan|--output|plain|%d", "Scan 1048576 |%d"),
    ("scan|--output|tsv|%d", "Scan 1048576 Tsv |%d"),
    ("scan|-o|tsv|-o|json|%d", "Scan 1048576 Json |%d"),
    ("scan|-ojson|%d|--output=plain", "Scan 1048576 |%d"),
    (
        "scan|--names|first name,b|-o|csv|%d",
        "Scan 1048576 Csv |%d names=first name,b",
    ),
    ("scan|%d|--output=json", "Scan 1048576 Json |%d"),
    (
        "scan|--output|json|--limit|8|--line-buffered|%d",
        "Scan 8 line-buffered Json |%d",
    ),
    (
        "scan|--output|json|--|--output",
        "Scan 1048576 Json |--output",
    ),
    ("scan|--|--output", "Scan 1048576 |--output"),
    ("scan|--lines|%d", "Scan 1048576 lines skip 0 |%d"),
    ("scan|%d|--lines", "Scan 1048576 lines skip 0 |%d"),
    ("scan|--lines|-e|%d", "Scan 1048576 lines skip 0 |%d"),
    (
        "scan|-e|%d,%d|--lines|-e|%d|-e|",
        "Scan 1048576 lines skip 0 |%d,%d |%d |",
    ),
    ("scan|--lines|-e%d", "Scan 1048576 lines skip 0 |%d"),
    ("scan|--lines|-e=-%d", "Scan 1048576 lines skip 0 |-%d"),
    ("scan|--lines|-e|=%d", "Scan 1048576 lines skip 0 |=%d"),
    ("scan|--lines|--|-e", "Scan 1048576 lines skip 0 |-e"),
    ("scan|--lines|--skip|3|%d", "Scan 1048576 lines skip 3 |%d"),
    (
        "scan|--skip=9223372036854775807|--lines|%d",
        "Scan 1048576 lines skip 9223372036854775807 |%d",
    ),
    (
        "scan|--whole|--lines|%d",
        "Scan 1048576 lines skip 0 whole |%d",
    ),
    (
        "scan|--lines|--keep-going|%d",
        "Scan 1048576 lines skip 0 keep-going |%d",
    ),
    (
        "scan|--lines|%d|--quiet",
        "Scan 1048576 lines skip 0 quiet |%d",
    ),
    (
        "scan|--lines|--whole|--keep-going|--quiet|--skip|1|--limit|80|--line-buffered|--output|tsv|-e|%d|-e|%s",
        "Scan 80 line-buffered Tsv lines skip 1 whole keep-going quiet |%d |%s",
    ),
    ("show|--|--lines", "Show 1048576 |--lines"),
    ("show|-p|2|%d", "Show 1048576 profile-2 |%d"),
    ("copy|-p2|%d;|%3d;", "Copy 1048576 profile-2 |%d; |%3d;"),
    (
        "copy|--lines|%d;|%3d;",
        "Copy 1048576 lines skip 0 |%d; |%3d;",
    ),
    (
        "copy|-lkqs|3|--whole|%d;|%3d;|names",
        "Copy 1048576 lines skip 3 whole keep-going quiet |%d; |%3d; file=names",
    ),
    (
        "scan|-lks|3|-o|json|-p=2|%d",
        "Scan 1048576 profile-2 Json lines skip 3 keep-going |%d",
    ),
    (
        "scan|%d|-q|-otsv|-ls2",
        "Scan 1048576 Tsv lines skip 2 quiet |%d",
    ),
    ("scan|-l|-e|-%d", "Scan 1048576 lines skip 0 |-%d"),
    (
        "scan|-e|- - %s|--lines|-e|-e|-e|--|-e|--lines|-e|-=|-e|-",
        "Scan 1048576 lines skip 0 |- - %s |-e |-- |--lines |-= |-",
    ),
    (
        "scan|-lkqe|-k|-e|%d",
        "Scan 1048576 lines skip 0 keep-going quiet |-k |%d",
    ),
    ("scan|-l|-e|%d|-e|-", "Scan 1048576 lines skip 0 |%d |-"),
    ("scan|--|-le", "Scan 1048576 |-le"),
    (
        "scan|--lines|-e|%d|-e|=-",
        "Scan 1048576 lines skip 0 |%d |=-",
    ),
    ("print|--|-e|-x", "Print 1048576 |-e |-x"),
    (
        "print|%s|--|--output|json",
        "Print 1048576 |%s |--output |json",
    ),
    ("scan|--no-explain|%d", "Scan 1048576 no-explain |%d"),
    ("show|%d|--no-explain", "Show 1048576 no-explain |%d"),
    ("scan|-o|csv|%d", "Scan 1048576 Csv |%d"),
    ("scan|--print|%5d\\n|%d", "Scan 1048576 |%d print=%5d\\n"),
    ("scan|--print=-%d|%d", "Scan 1048576 |%d print=-%d"),
    ("scan|%d|--print=", "Scan 1048576 |%d print="),
    (
        "scan|--names|a,b|--output|json|%d,%d",
        "Scan 1048576 Json |%d,%d names=a,b",
    ),
    ("scan|-otsv|--names=,|%d", "Scan 1048576 Tsv |%d names=,"),
    (
        "scan|--names|a|-o|csv|--|--names",
        "Scan 1048576 Csv |--names names=a",
    ),
    (
        "scan|--lines|--tag|-e|%d|-e|%s",
        "Scan 1048576 lines skip 0 |%d |%s tag",
    ),
    (
        "scan|--lines|-e|%d|--tag|-o|json|--names|n",
        "Scan 1048576 Json lines skip 0 |%d names=n tag",
    ),
    (
        "scan|--lines|--matching|%d",
        "Scan 1048576 lines skip 0 matching |%d",
    ),
    (
        "scan|--lines|--matching|--whole|%d",
        "Scan 1048576 lines skip 0 whole matching |%d",
    ),
    (
        "scan|--lines|--ignore| |--ignore|#%*s|%d",
        "Scan 1048576 lines skip 0 |%d ignore=  ignore=#%*s",
    ),
    (
        "scan|--ignore=--%*s|-l|%d",
        "Scan 1048576 lines skip 0 |%d ignore=--%*s",
    ),
    (
        "scan|-lkq|--ignore|#|--print|%d|-e|%d",
        "Scan 1048576 lines skip 0 keep-going quiet |%d print=%d ignore=#",
    ),
    ("print|--raw|%s|a\\q", "Print 1048576 |%s |a\\q raw"),
    ("scan|-lw|%d", "Scan 1048576 lines skip 0 whole |%d"),
    (
        "scan|-lwke|-w|%d",
        "Scan 1048576 lines skip 0 whole keep-going |-w file=%d",
    ),
    (
        "scan|-l|--ignore|--%*s|%d",
        "Scan 1048576 lines skip 0 |%d ignore=--%*s",
    ),
    ("scan|--print|-%d|%d", "Scan 1048576 |%d print=-%d"),
    ("print|%d|-5", "Print 1048576 |%d |-5"),
    ("print|%d %s|-5|--raw", "Print 1048576 |%d %s |-5 |--raw"),
    (
        "print|-p|2|--raw|%d|-5|-x",
        "Print 1048576 profile-2 |%d |-5 |-x raw",
    ),
    ("check|%d\\n", "Check 1048576 |%d\\n"),
    ("check|--|-%d", "Check 1048576 |-%d"),
    ("check|--width|20|%s", "Check 1048576 |%s width=20"),
    ("check|%s|--width=65535", "Check 1048576 |%s width=65535"),
    ("check|--width|001|%s", "Check 1048576 |%s width=1"),
    ("scan|%d|a|-|b", "Scan 1048576 |%d file=a file=- file=b"),
    ("scan|%d|", "Scan 1048576 |%d file="),
    ("scan|%d|--|--lines", "Scan 1048576 |%d file=--lines"),
    (
        "scan|--lines|-e|%d|a|b",
        "Scan 1048576 lines skip 0 |%d file=a file=b",
    ),
    (
        "scan|a|--lines|-e|%d|-e|%s|b",
        "Scan 1048576 lines skip 0 |%d |%s file=a file=b",
    ),
    (
        "copy|%d;|%3d;|a|--limit|8|b",
        "Copy 8 |%d; |%3d; file=a file=b",
    ),
    ("scan|--strict|%d", "Scan 1048576 strict |%d"),
    ("scan|%d|-S", "Scan 1048576 strict |%d"),
    ("scan|-Sp3|%lf", "Scan 1048576 profile-3 strict |%lf"),
    ("scan|--|-S", "Scan 1048576 |-S"),
    ("scan|-lS|%d", "Scan 1048576 strict lines skip 0 whole |%d"),
    (
        "scan|-lwS|-p2|%d",
        "Scan 1048576 profile-2 strict lines skip 0 whole |%d",
    ),
    (
        "scan|-lSe|-%d|-e|%u",
        "Scan 1048576 strict lines skip 0 whole |-%d |%u",
    ),
    (
        "scan|--strict|--lines|--ignore|-%d|--matching|%d",
        "Scan 1048576 strict lines skip 0 whole matching |%d ignore=-%d",
    ),
    ("print|%s|--|--strict", "Print 1048576 |%s |--strict"),
];

/// The words of a line, between which bars stand.
fn words_of(alloc: Global, line: &str) -> Result<Vec<String>, Fail> {
    let mut words = Vec::new(alloc);
    for word in line.split('|') {
        words.push(String::from_str(alloc, word)?)?;
    }
    Ok(words)
}

/// The name of an option that is set.
fn named(is_set: bool, name: &'static str) -> &'static str {
    if is_set { name } else { "" }
}

/// The options of lines.
fn lines_text(alloc: Global, lines: LineOptions) -> Result<String, Fail> {
    Ok(format!(in alloc;
        " lines skip {}{}{}{}{}",
        lines.skip,
        named(lines.whole, " whole"),
        named(lines.keep_going, " keep-going"),
        named(lines.quiet, " quiet"),
        named(lines.matching, " matching")
    )?)
}

/// The profile.
fn profile_name(profile: Profile) -> &'static str {
    match profile {
        Profile::One => "",
        Profile::Two => " profile-2",
        Profile::Three => " profile-3",
    }
}

/// The form of the values.
fn output_name(output: Output) -> &'static str {
    match output {
        Output::Plain => "",
        Output::Tsv => " Tsv",
        Output::Json => " Json",
        Output::Csv => " Csv",
    }
}

/// When more is said of a fault.
fn notes_name(notes: Notes) -> &'static str {
    match notes {
        Notes::Always => " explain",
        Notes::OnTerminal => "",
        Notes::Never => " no-explain",
    }
}

/// The options that are added to what is scanned, printed or checked.
fn push_added(line: &mut String, order: &Order) -> Result<(), Fail> {
    if let Some(print) = &order.print {
        write!(line, " print={print}")?;
    }
    if let Some(names) = &order.names {
        write!(line, " names={names}")?;
    }
    for format in &order.ignored {
        write!(line, " ignore={format}")?;
    }
    if let Some(width) = order.width {
        write!(line, " width={width}")?;
    }
    line.push_str(named(order.tag, " tag"))?;
    line.push_str(named(order.raw, " raw"))?;
    for file in &order.files {
        write!(line, " file={file}")?;
    }
    Ok(())
}

/// An order in one line: verb, limit, options, the texts between bars, and what is added. Profile 1 and the plain form
/// aren't named.
fn line_of(alloc: Global, order: &Order) -> Result<String, Fail> {
    let lines = match order.lines {
        Some(lines) => lines_text(alloc, lines)?,
        None => String::new(alloc),
    };
    let mut line = format!(in alloc;
        "{:?} {}{}{}{}{}{}{lines}",
        order.verb,
        order.limit,
        named(order.line_buffered, " line-buffered"),
        profile_name(order.profile),
        named(order.strict, " strict"),
        notes_name(order.notes),
        output_name(order.output)
    )?;
    for text in &order.texts {
        line.push_str(" |")?;
        line.push_str(text)?;
    }
    push_added(&mut line, order)?;
    Ok(line)
}

/// The order of the words, in one line.
fn ordered(alloc: Global, words: &str) -> Result<String, Fail> {
    let words = words_of(alloc, words)?;
    let order = read_words(alloc, &words)?;
    line_of(alloc, &order)
}

#[test]
fn taken_words(rt: HostRuntime) -> Result<(), Fail> {
    for (words, wanted) in &ORDERS {
        let line = ordered(rt.alloc(), words)?;
        assert_eq!(rt; line.as_str(), *wanted, "at {words}");
    }
    Ok(())
}
