use line_input::input::{Got, LIMIT, next_line};
use std::io::{BufRead, BufReader};
use std::process::Abort;
use std::test::Fail;

// The next line is whole, and is `expected`.
fn expect_line<B: BufRead>(
    rt: &impl Abort,
    input: &mut B,
    line: &mut Vec<u8>,
    expected: &[u8],
) -> Result<(), Fail> {
    assert_eq!(rt; next_line(input, line)?, Got::Line);
    assert_eq!(rt; line.as_slice(), expected);
    Ok(())
}

// The next line is none, and nothing is held.
fn expect_no_line<B: BufRead>(
    rt: &impl Abort,
    input: &mut B,
    line: &mut Vec<u8>,
    expected: Got,
) -> Result<(), Fail> {
    assert_eq!(rt; next_line(input, line)?, expected);
    assert!(rt; line.is_empty());
    Ok(())
}

fn push_times(out: &mut Vec<u8>, b: u8, times: usize) -> Result<(), Fail> {
    for _ in 0..times {
        out.push(b)?;
    }
    Ok(())
}

#[test]
fn any_bytes_are_lines(rt: HostRuntime) -> Result<(), Fail> {
    let mut input: &[u8] = b"ab\xff\xc3\n\n\x00\r\na\rb\r\r\n\r\nlast\r";
    let mut line = Vec::new(rt.alloc());
    expect_line(&rt, &mut input, &mut line, b"ab\xff\xc3")?;
    expect_line(&rt, &mut input, &mut line, b"")?;
    expect_line(&rt, &mut input, &mut line, b"\x00")?;
    expect_line(&rt, &mut input, &mut line, b"a\rb\r")?;
    expect_line(&rt, &mut input, &mut line, b"")?;
    expect_line(&rt, &mut input, &mut line, b"last")?;
    expect_no_line(&rt, &mut input, &mut line, Got::End)?;
    expect_no_line(&rt, &mut input, &mut line, Got::End)
}

#[test]
fn a_line_has_at_most_the_limit(rt: HostRuntime) -> Result<(), Fail> {
    let mut bytes = Vec::new(rt.alloc());
    push_times(&mut bytes, b'a', LIMIT)?;
    bytes.push(b'\n')?;
    push_times(&mut bytes, b'b', LIMIT + 1)?;
    bytes.extend_from_slice(b"\nshort\n")?;
    push_times(&mut bytes, b'c', LIMIT)?;
    bytes.extend_from_slice(b"\r\nnext\r\n")?;
    push_times(&mut bytes, b'd', 3 * LIMIT)?;
    let mut longest = Vec::new(rt.alloc());
    push_times(&mut longest, b'a', LIMIT)?;
    let mut line = Vec::new(rt.alloc());
    let mut input = BufReader::new(rt.alloc(), bytes.as_slice())?;
    expect_line(&rt, &mut input, &mut line, longest.as_slice())?;
    expect_no_line(&rt, &mut input, &mut line, Got::Long)?;
    expect_line(&rt, &mut input, &mut line, b"short")?;
    expect_no_line(&rt, &mut input, &mut line, Got::Long)?;
    expect_line(&rt, &mut input, &mut line, b"next")?;
    expect_no_line(&rt, &mut input, &mut line, Got::Long)?;
    expect_no_line(&rt, &mut input, &mut line, Got::End)
}
