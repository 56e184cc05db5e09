// Wiring files: each refusal at its edge, and all that is printed of a file.
use std::test::*;
use wiring::{report_text, survey_file};

// A sizes record of 5 nodes and 3 labels.
const SIZES: [u8; 8] = [4, 0, 1, 0, 5, 0, 3, 0];

fn prints(rt: &HostRuntime, bytes: &[u8], expected: &str) -> Result<(), Fail> {
    let survey = survey_file(rt.alloc(), bytes)?;
    let text = report_text(rt.alloc(), &survey)?;
    if text.as_str() == expected {
        Ok(())
    } else {
        Err(Fail::new("another text is printed"))
    }
}

// Behind a sizes record.
fn prints_behind_sizes(rt: &HostRuntime, bytes: &[u8], expected: &str) -> Result<(), Fail> {
    let mut file = Vec::new(rt.alloc());
    file.extend_from_slice(&SIZES)?;
    file.extend_from_slice(bytes)?;
    prints(rt, file.as_slice(), expected)
}

#[test]
fn an_empty_file_prints_nothing(rt: HostRuntime) -> Result<(), Fail> {
    prints(&rt, &[], "")
}

#[test]
fn records_that_are_cut(rt: HostRuntime) -> Result<(), Fail> {
    prints(&rt, &[4, 0, 1], "refused 15 at 0\n")?;
    prints(&rt, &[4, 0, 1, 0, 5, 0, 3], "refused 15 at 0\n")?;
    prints_behind_sizes(&rt, &[5, 0, 2, 0, 0, 0, 0, 1], "refused 15 at 8\n0 wires\n")?;
    prints_behind_sizes(&rt, &[255, 255, 4, 0], "refused 15 at 8\n0 wires\n")?;
    // cut comes before malformed
    prints(&rt, &[9, 0, 9, 0], "refused 15 at 0\n")
}

#[test]
fn records_that_are_malformed(rt: HostRuntime) -> Result<(), Fail> {
    prints(&rt, &[0, 0, 0, 0], "refused 16 at 0\n")?;
    prints(&rt, &[0, 0, 5, 0], "refused 16 at 0\n")?;
    prints(&rt, &[0, 0, 1, 1], "refused 16 at 0\n")?;
    prints(&rt, &[5, 0, 1, 0, 5, 0, 3, 0, 0], "refused 16 at 0\n")?;
    prints_behind_sizes(&rt, &[4, 0, 2, 0, 0, 0, 0, 1], "refused 16 at 8\n0 wires\n")?;
    prints_behind_sizes(
        &rt,
        &[6, 0, 3, 0, 0, 0, 0, 1, 0, 0],
        "refused 16 at 8\n0 wires\n",
    )
}

#[test]
fn records_out_of_place(rt: HostRuntime) -> Result<(), Fail> {
    prints(&rt, &[5, 0, 2, 0, 0, 0, 0, 1, 0], "refused 17 at 0\n")?;
    prints(&rt, &[0, 0, 4, 0], "refused 17 at 0\n")?;
    prints_behind_sizes(&rt, &SIZES, "refused 17 at 8\n0 wires\n")?;
    // out of place comes before out of range
    prints_behind_sizes(&rt, &[4, 0, 1, 0, 0, 0, 0, 0], "refused 17 at 8\n0 wires\n")
}

#[test]
fn sizes_out_of_range(rt: HostRuntime) -> Result<(), Fail> {
    prints(&rt, &[4, 0, 1, 0, 0, 0, 3, 0], "refused 14 at 0\n")?;
    prints(&rt, &[4, 0, 1, 0, 201, 0, 3, 0], "refused 14 at 0\n")?;
    prints(&rt, &[4, 0, 1, 0, 5, 0, 0, 0], "refused 14 at 0\n")?;
    prints(&rt, &[4, 0, 1, 0, 5, 0, 27, 0], "refused 14 at 0\n")?;
    prints(&rt, &[4, 0, 1, 0, 5, 0, 1, 1], "refused 14 at 0\n")?;
    prints(&rt, &[4, 0, 1, 0, 200, 0, 26, 0], "0 wires\n")?;
    prints(&rt, &[4, 0, 1, 0, 1, 0, 1, 0], "0 wires\n")
}

#[test]
fn changes_turned_away(rt: HostRuntime) -> Result<(), Fail> {
    // a node, then a label past the last; the reading goes on
    prints_behind_sizes(
        &rt,
        &[
            5, 0, 2, 0, 5, 0, 0, 1, 0, 5, 0, 3, 0, 0, 0, 3, 1, 0, 5, 0, 2, 0, 4, 0, 2, 0, 0,
        ],
        "refused 18 at 8\nrefused 18 at 17\n4 c 0\n1 wires\n",
    )
}

#[test]
fn wires_rise(rt: HostRuntime) -> Result<(), Fail> {
    prints_behind_sizes(
        &rt,
        &[
            5, 0, 2, 0, 1, 0, 1, 0, 0, 5, 0, 2, 0, 0, 0, 2, 4, 0, 5, 0, 2, 0, 0, 0, 2, 3, 0, 3, 0,
            4, 0, 65, 58, 65, 5, 0, 2, 0, 0, 0, 0, 1, 0, 5, 0, 3, 0, 0, 0, 2, 4, 0,
        ],
        "refused 18 at 35\n0 a 1\n0 c 3\n1 b 0\n3 wires\n",
    )
}

#[test]
fn queries_that_are_refused(rt: HostRuntime) -> Result<(), Fail> {
    // no text, and a head variable that stands twice
    prints_behind_sizes(&rt, &[0, 0, 4, 0], "refused 18 at 8\n0 wires\n")?;
    prints_behind_sizes(
        &rt,
        &[8, 0, 4, 0, b'A', b'A', b':', b'A', b'[', b'a', b']', b'B'],
        "refused 18 at 8\n0 wires\n",
    )?;
    // one that is accepted prints nothing
    prints_behind_sizes(
        &rt,
        &[7, 0, 4, 0, b'A', b':', b'A', b'[', b'a', b']', b'B'],
        "0 wires\n",
    )
}
