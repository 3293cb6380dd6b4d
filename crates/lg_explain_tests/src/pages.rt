//! The page of accounts.

use crate::making::{how_it_failed, how_it_left};
use lg_accounts::{Account, put_accounts_page};
use lg_testing::letter;
use std::alloc::Global;
use std::str;
use std::test::Fail;

/// How the page of `c` begins.
const FRONT: &str = "<!DOCTYPE html>\n<html lang=\"en\">\n<head>\n<meta charset=\"utf-8\">\n\
<meta name=\"viewport\" content=\"width=device-width\">\n<title>c</title>\n<style>\n";

/// What stands between the style and the first account, and behind the last.
const BODY: &str = "</style>\n</head>\n<body>\n<h1>c</h1>\n";

const END: &str = "</body>\n</html>\n";

/// How an account of it begins that failed, up to the first mark.
const FAILED: &str = "<h2>c failed at 7020 ms (2026-11-27 03:12:44), here.</h2>\n\
<svg viewBox=\"0 0 960 165\" role=\"img\">\n\
<text x=\"0\" y=\"20\">Probes</text><line x1=\"100\" y1=\"20\" x2=\"940\" y2=\"20\"/>\n\
<text x=\"0\" y=\"50\">Answers</text><line x1=\"100\" y1=\"50\" x2=\"940\" y2=\"50\"/>\n\
<text x=\"0\" y=\"80\">Claims</text><line x1=\"100\" y1=\"80\" x2=\"940\" y2=\"80\"/>\n\
<text x=\"0\" y=\"110\">Score</text><line x1=\"100\" y1=\"110\" x2=\"940\" y2=\"110\"/>\n\
<text x=\"0\" y=\"140\">Record</text><line x1=\"100\" y1=\"140\" x2=\"940\" y2=\"140\"/>\n";

/// Some of its marks. From 1020 to 7020 there are 6000 ms, so that 500 of them are 70 of 840.
const MARKS: [&str; 7] = [
    "<circle cx=\"100\" cy=\"20\" r=\"5\" class=\"probe\"><title>1020 \
    We pinged it (probe 7, at 127.0.0.1:7103).</title></circle>\n",
    "<circle cx=\"170\" cy=\"20\" r=\"5\" class=\"late\"><title>1520 \
    No Ack came within 500 ms. We asked a and d to ping it.</title></circle>\n",
    "<circle cx=\"223\" cy=\"50\" r=\"5\" class=\"late\"><title>1905 \
    a sent a Nack: no Ack of it had come.</title></circle>\n",
    "<circle cx=\"240\" cy=\"110\" r=\"5\" class=\"late\"><title>2020 \
    Our health score rose from 0 to 2.</title></circle>\n",
    "<circle cx=\"240\" cy=\"140\" r=\"5\" class=\"suspect\"><title>2020 \
    We suspected it at incarnation 0.</title></circle>\n",
    "<circle cx=\"368\" cy=\"80\" r=\"5\" class=\"suspect\"><title>2940 \
    d told us that d suspects it at incarnation 0.</title></circle>\n",
    "<circle cx=\"940\" cy=\"140\" r=\"5\" class=\"gone\"><title>7020 \
    We took it as failed.</title></circle>\n</svg>\n<ol>\n\
    <li><b>1020</b> We pinged it (probe 7, at 127.0.0.1:7103).</li>\n",
];

/// The last item of it, and an account of how it left behind it, from its heading to the lanes.
const LEFT: &str =
    "<li><b>7020</b> The time was over, and no refutation had come. We took it as failed.</li>\n</ol>\n\
<h2>c left at 9000 ms (2026-11-27 03:12:45), as c told.</h2>\n<svg viewBox=\"0 0 960 165\" role=\"img\">\n";

/// How that account ends, with the page.
const LEFT_END: &str = "<circle cx=\"100\" cy=\"80\" r=\"5\" class=\"gone\"><title>9000 \
c told us that it left at incarnation 2.</title></circle>\n\
<circle cx=\"100\" cy=\"140\" r=\"5\" class=\"gone\"><title>9000 We took it as left.</title></circle>\n\
</svg>\n<ol>\n<li><b>9000</b> c told us that it left at incarnation 2. We took it as left.</li>\n</ol>\n\
<p>Some of the past is missing, so scores and timeouts may not be told.</p>\n</body>\n</html>\n";

/// Whether the page of accounts begins and ends as it should, and has these parts in this order, behind what a text
/// held before.
fn shows(alloc: Global, accounts: &[Account], parts: &[&str], end: &str) -> Result<bool, Fail> {
    let mut text = Vec::new(alloc);
    text.extend_from_slice(b"before\n")?;
    put_accounts_page(&letter(b'c'), accounts, &mut text)?;
    let Ok(page) = str::from_utf8(text.as_slice()) else {
        return Ok(false);
    };
    let Some(mut rest) = page.strip_prefix("before\n") else {
        return Ok(false);
    };
    if !rest.starts_with(FRONT) || !rest.ends_with(end) {
        return Ok(false);
    }
    for part in parts {
        let Some((_, behind)) = rest.split_once(*part) else {
            return Ok(false);
        };
        rest = behind;
    }
    Ok(true)
}

#[test]
fn shows_how_it_failed_and_left(rt: HostRuntime) -> Result<(), Fail> {
    let alloc = rt.alloc();
    let accounts = [how_it_failed(alloc)?, how_it_left(alloc)?];
    assert!(rt; shows(alloc, &accounts, &[BODY, FAILED], LEFT_END)?);
    assert!(rt; shows(alloc, &accounts, &MARKS, LEFT_END)?);
    assert!(rt; shows(alloc, &accounts, &[LEFT, LEFT_END], END)?);
    Ok(())
}

#[test]
fn shows_that_there_is_none(rt: HostRuntime) -> Result<(), Fail> {
    let alloc = rt.alloc();
    let line = "<p>c has not been suspected, and has neither failed nor left.</p>\n";
    assert!(rt; shows(alloc, &[], &[BODY, line, END], END)?);
    Ok(())
}
