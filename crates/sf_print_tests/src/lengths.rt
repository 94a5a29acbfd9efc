//! Texts of 127 to 300 bytes: a sink is handed up to 128 bytes at once, and a longer piece goes to it directly.
use crate::printing::{prints, prints_in_part};
use sf_base::Value;
use sf_format::{PrintFormat, Profile};
use sf_print::WriteStep;
use std::alloc::Global;
use std::test::Fail;

/// A format of one text: the bytes before it, to how many bytes blanks fill it up and on which side, how many of its
/// bytes are printed at most, and the bytes after it.
#[derive(Drop)]
struct Form {
    format: &'static [u8],
    before: &'static [u8],
    width: usize,
    left: bool,
    most: usize,
    after: &'static [u8],
}

const PLAIN: Form = Form {
    format: b"%s",
    before: b"",
    width: 0,
    left: false,
    most: 300,
    after: b"",
};

static FORMS: [Form; 6] = [
    PLAIN,
    Form {
        format: b"<%s>\n",
        before: b"<",
        after: b">\n",
        ..PLAIN
    },
    Form {
        format: b"%300s;",
        width: 300,
        after: b";",
        ..PLAIN
    },
    Form {
        format: b"ab%-300s;",
        before: b"ab",
        width: 300,
        left: true,
        after: b";",
        ..PLAIN
    },
    Form {
        format: b"%.128s|%%",
        most: 128,
        after: b"|%",
        ..PLAIN
    },
    Form {
        format: b"=%129.127s",
        before: b"=",
        width: 129,
        most: 127,
        ..PLAIN
    },
];

/// So many letters, each other than the one before.
fn letters(alloc: Global, count: usize) -> Result<Vec<u8>, Fail> {
    let mut text = Vec::new(alloc);
    for letter in (b'a'..=b'z').cycle().take(count) {
        text.push(letter)?;
    }
    Ok(text)
}

static BLANKS: [u8; 300] = [b' '; 300];

/// What is printed of the text.
fn printed(alloc: Global, form: &Form, text: &[u8]) -> Result<Vec<u8>, Fail> {
    let shown = text.get(..form.most).unwrap_or(text);
    let blanks = BLANKS.get(shown.len()..form.width).unwrap_or(b"");
    let mut whole = form.before.to_vec(alloc)?;
    whole.extend_from_slice(if form.left { shown } else { blanks })?;
    whole.extend_from_slice(if form.left { blanks } else { shown })?;
    whole.extend_from_slice(form.after)?;
    Ok(whole)
}

/// A sink that takes 7 bytes, then 100, and then fails.
static CUT: [WriteStep; 3] = [
    WriteStep::Accept(7),
    WriteStep::Accept(100),
    WriteStep::Fail,
];

/// The text in one form.
fn is_in_form(alloc: Global, format: &PrintFormat, text: &[u8], wanted: &[u8]) -> Result<(), Fail> {
    let values = [Value::Text(text)];
    prints(alloc, format, &values, wanted)?;
    prints_in_part(alloc, format, &values, wanted, &CUT, 107)
}

/// Texts of 127 to 300 bytes in one form.
fn all_lengths(alloc: Global, form: &Form, letters: &[u8]) -> Result<(), Fail> {
    let format = PrintFormat::parse(alloc, Profile::One, form.format)?;
    for count in 127..301usize {
        let text = letters.get(..count).unwrap_or(letters);
        is_in_form(alloc, &format, text, &printed(alloc, form, text)?)?;
    }
    Ok(())
}

#[test]
fn texts_about_a_block(rt: HostRuntime) -> Result<(), Fail> {
    let letters = letters(rt.alloc(), 300)?;
    for form in &FORMS {
        all_lengths(rt.alloc(), form, &letters)?;
    }
    Ok(())
}
