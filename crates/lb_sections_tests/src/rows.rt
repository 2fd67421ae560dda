// Rows of inputs and their sections.
use lb_sections::{Section, SectionsError, section_at, sections_of};
use std::alloc::{AllocError, Global};
use std::process::Abort;
use std::test::Fail;

// The text with `;` in place of a line feed and `^` in place of a carriage return.
fn shown(alloc: Global, text: &[u8]) -> Result<String, AllocError> {
    let mut shown = String::new(alloc);
    for byte in text {
        match *byte {
            b'\n' => shown.push(';')?,
            b'\r' => shown.push('^')?,
            byte => shown.push(byte as char)?,
        }
    }
    Ok(shown)
}

// The sections of the input, each as its first line's number and its text, or the first mark too many.
fn told(rt: &impl Abort, alloc: Global, input: &str, most: u32) -> Result<String, AllocError> {
    let input = input.as_bytes();
    assert!(rt; input.len() < 1_000_000 && most > 0);
    let list = match sections_of(alloc, input, most) {
        Ok(list) => list,
        Err(SectionsError::TooMany { line }) => return format!(in alloc; "section line {line}"),
        Err(SectionsError::Memory) => return String::from_str(alloc, "memory"),
    };
    let mut told = String::new(alloc);
    for section in &list {
        let text = shown(alloc, section.text)?;
        told.push_str(format!(in alloc; "{}<{text}>", section.line)?.as_str())?;
    }
    Ok(told)
}

#[test]
fn inputs_are_cut_at_their_marks(rt: HostRuntime) -> Result<(), Fail> {
    let alloc = rt.alloc();
    for (input, most, want) in [
        ("", 1u32, "1<>"),
        ("a", 1, "1<a>"),
        ("a\n\nb\n", 1, "1<a;;b;>"),
        ("%%", 2, "1<>2<>"),
        ("%%\n", 2, "1<>2<>"),
        ("%%\r", 2, "1<>2<>"),
        ("%%\r\n", 2, "1<>2<>"),
        ("a\n%%", 2, "1<a;>3<>"),
        ("a\n%%\nb", 2, "1<a;>3<b>"),
        ("a\r\n%%\r\nb\r\n", 2, "1<a^;>3<b^;>"),
        ("a\n\n%%\n\nb\n%%\n%%\nc", 4, "1<a;;>4<;b;>7<>8<c>"),
        ("a\n\n%%\n\nb\n%%\n%%\nc", 9, "1<a;;>4<;b;>7<>8<c>"),
        (
            "%%\r\r\n% %\n%\n%%%\n%%\n %%\n%% \n",
            2,
            "1<%%^^;% %;%;%%%;>6< %%;%% ;>",
        ),
        ("a%%\n%%a\n\r%%\n%%\r\r", 1, "1<a%%;%%a;^%%;%%^^>"),
        ("%%\n", 1, "section line 1"),
        ("a\n%%\nb", 1, "section line 2"),
        ("a\n\n%%\n\nb\n%%\r\n%%\nc", 1, "section line 3"),
        ("a\n\n%%\n\nb\n%%\r\n%%\nc", 2, "section line 6"),
        ("a\n\n%%\n\nb\n%%\r\n%%\nc", 3, "section line 7"),
        ("a\n%%\nb\n%%", 2, "section line 4"),
    ] {
        assert_eq!(rt; told(&rt, alloc, input, most)?.as_str(), want);
    }
    Ok(())
}

#[test]
fn a_section_that_is_missing_is_empty(rt: HostRuntime) -> Result<(), Fail> {
    let alloc = rt.alloc();
    let first = Section {
        line: 1,
        text: b"a\n",
    };
    let second = Section {
        line: 3,
        text: b"b",
    };
    let list = vec![in alloc; first, second]?;
    assert!(rt; section_at(&list, 0) == first);
    assert!(rt; section_at(&list, 1) == second);
    assert!(rt; section_at(&list, 2).text.is_empty());
    assert!(rt; section_at(&[], 0).text.is_empty());
    Ok(())
}
