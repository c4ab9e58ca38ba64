// Tables of lines, held to what follows them.
use std::alloc::Global;
use std::process::Abort;
use std::test::Fail;

pub trait Follow: Copy {
    // What is answered to a line, or what is wrong with it, as a table shows it.
    fn told(&mut self, heap: Global, line: &str) -> Result<Result<String, String>, Fail>;
}

// Each line has the answer behind its arrow, and leaves the follower where it was; a line without one moves it on.
pub fn holds<F: Follow>(
    rt: &(impl Abort + AllocGlobal),
    mut follower: F,
    table: &str,
) -> Result<(), Fail> {
    for row in table.lines() {
        if let Some((line, expected)) = row.split_once(" =>") {
            let mut copy = follower;
            let (Ok(told) | Err(told)) = copy.told(rt.alloc(), line)?;
            assert_eq!(rt; told.as_str(), expected, "{}", row);
        } else if follower.told(rt.alloc(), row)?.is_err() {
            return Err(Fail::new(row));
        }
    }
    Ok(())
}
