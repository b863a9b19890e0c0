//! Lines, cut and kept.
use crate::{
    LineText, Lines, SectionKind, Sections, Span, TextFault, cut_line, first_control, first_item,
    items, tokens,
};
use std::test::Fail;

#[test]
fn cuts_a_line(rt: HostRuntime) -> Result<(), Fail> {
    let places = items(rt.alloc(), b"\tTHEN  PUMP N1A;off")?;
    let expected = [
        Span { start: 1, end: 5 },
        Span { start: 7, end: 11 },
        Span { start: 12, end: 15 },
    ];
    assert_eq!(rt; places.as_slice(), expected.as_slice());
    Ok(())
}

#[test]
fn cuts_a_line_without_control_bytes(rt: HostRuntime) -> Result<(), Fail> {
    let Ok(places) = tokens(rt.alloc(), b"P1\tP1 ;\x01 P1") else {
        return Err(Fail::from("a control byte in the comment"));
    };
    let expected = [Span { start: 0, end: 2 }, Span { start: 3, end: 5 }];
    assert_eq!(rt; places.as_slice(), expected.as_slice());
    Ok(())
}

#[test]
fn cuts_a_line_into_texts(rt: HostRuntime) -> Result<(), Fail> {
    let texts = cut_line(rt.alloc(), b"\tTHEN  PUMP N1A;off")?;
    assert_eq!(rt; texts.len(), 3);
    assert_eq!(rt; texts[0], b"THEN".as_slice());
    assert_eq!(rt; texts[2], b"N1A".as_slice());
    Ok(())
}

#[test]
fn gives_the_first_item(rt: HostRuntime) -> Result<(), Fail> {
    assert_eq!(rt; first_item(b"  P1 N1"), Some(b"P1".as_slice()));
    assert_eq!(rt; first_item(b" ;P1"), None);
    Ok(())
}

#[test]
fn finds_a_control_byte(rt: HostRuntime) -> Result<(), Fail> {
    assert_eq!(rt; first_control(b"P1\t\x7f"), Some(3));
    assert_eq!(rt; first_control(b"P1 ;\x01"), None);
    Ok(())
}

#[test]
fn refuses_a_control_byte(rt: HostRuntime) -> Result<(), Fail> {
    let refused = tokens(rt.alloc(), b"P1\x01 N1");
    assert!(rt; matches!(refused, Err(TextFault::BadText(2))));
    Ok(())
}

#[test]
fn keeps_the_lines_of_sections(rt: HostRuntime) -> Result<(), Fail> {
    let mut sections = Sections::new(rt.alloc());
    sections.push(Some(b"[junctions]"))?;
    sections.push(None)?;
    sections.push(Some(b"; none"))?;
    sections.push(Some(b"N1 5"))?;
    sections.push(Some(b"[TITLE]"))?;
    sections.push(Some(b"N2"))?;
    let lines = sections.lines(SectionKind::Junctions);
    assert_eq!(rt; lines.len(), 1);
    assert_eq!(rt; lines[0].number, 4);
    assert_eq!(rt; lines[0].bytes.as_slice(), b"N1 5".as_slice());
    assert_eq!(rt; sections.first_long(), Some(2));
    Ok(())
}

#[test]
fn lists_lines(rt: HostRuntime) -> Result<(), Fail> {
    let mut lines = Lines::new(rt.alloc());
    lines.push(Some(b"a 1"))?;
    lines.push(None)?;
    let Some(LineText::Text(bytes)) = lines.get(0) else {
        return Err(Fail::from("the first line"));
    };
    assert_eq!(rt; bytes, b"a 1".as_slice());
    assert!(rt; matches!(lines.get(1), Some(LineText::Long)));
    assert!(rt; matches!(lines.get(2), None));
    Ok(())
}
