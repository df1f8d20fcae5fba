use ddl_print::print;
use ddl_read::read;
use hs_texts::{Refusal, Text};
use std::alloc::Global;
use std::test::Fail;

/// A mission in which each clause of the language stands, in a line. The last script and the goal's
/// range `start` are what is meant where none is written.
const MISSION: &[u8] =
    b"hsts 2 var camera value idle [01,1000000000] then shoot value shoot [3,5] by device then idle , rest script do open 7 ; until ready answers 1000000000 ready , 4 done answers 2 done begin idle var attitude value turn [10,12] by device script until done need camera . shoot meets attitude.turn or contained_by [0,inf] [2,9] attitude.turn horizon 100 goal camera.shoot start [0,inf] stop [20,40] end";

const PRINTED: &[u8] =
    b"hsts 2\nvar camera\nvalue idle [1,inf] then shoot\nvalue shoot [3,5] by device then idle, rest\nscript do open 7; until ready\nanswers 1000000000 ready, 4 done\nanswers 2 done\nbegin idle\nvar attitude\nvalue turn [10,12] by device\nneed camera.shoot meets attitude.turn or contained_by [0,inf] [2,9] attitude.turn\nhorizon 100\ngoal camera.shoot stop [20,40]\nend\n";

fn printed(alloc: Global, text: &[u8]) -> Result<Text, Refusal> {
    let ast = read(alloc, text)?;
    Ok(print(alloc, &ast)?)
}

#[test]
fn prints_each_clause(rt: HostRuntime) -> Result<(), Fail> {
    let text = printed(rt.alloc(), MISSION)?;
    assert!(rt; text.as_bytes() == PRINTED);
    Ok(())
}
