use crate::asserts::is_text;
use snap_model::OutOfMemory;
use snap_text::export_text;

#[test]
fn writes_a_line_for_each_pair(rt: HostRuntime) -> Result<(), OutOfMemory> {
    let none = export_text(rt.alloc(), &[])?;
    is_text(&rt, &none, b"key,value\n");
    let pairs = [
        (1, 10),
        (3, 0),
        (18_446_744_073_709_551_615, 18_446_744_073_709_551_614),
    ];
    let text = export_text(rt.alloc(), &pairs)?;
    let want = b"key,value\n1,10\n3,0\n18446744073709551615,18446744073709551614\n";
    is_text(&rt, &text, want);
    Ok(())
}
