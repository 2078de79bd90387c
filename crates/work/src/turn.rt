// The lasso turned so that its cycle starts just after its first edge. `as` narrows where the number is proved to fit; try_from would give a Result
// that never fails.
ghost use Rattle.std.specs.Prelude.{◌≡◌, ◌+◌, ◌≤◌, length, take, drop};
ghost use Rattle.schedules.specs.Turning.{until_edge, past_edge};
ghost use Rattle.work.specs.Work.{RoomForPairs, lent_pairs, given_work};
ghost use Rattle.work.specs.PrivatePromises.{LassoWritten};

use crate::Lengths;
use crate::pairs::PairWriter;

// The place just after the first edge, or where the codes end.
fn past_edge(codes: &[u16]) -> usize
    ensures within { result ≤ length codes.now }
    ensures until { take result codes.now ≡ until_edge codes.now }
    ensures past { drop result codes.now ≡ past_edge codes.now }
{
    for (i, code) in codes.iter().enumerate() {
        match *code {
            0..=31 => return i + 1,
            32 => {}
            33 => {}
            // No step has another code.
            _ => {}
        }
    }
    codes.len()
}

// The pairs of a stem and a cycle, turned.
pub(crate) fn write_lasso(
    stem: &[u16],
    cycle: &[u16],
    waits: &mut [u16],
    edges: &mut [u16],
) -> Lengths
    requires few { length stem.now + length cycle.now ≤ 2048 }
    requires long_enough { RoomForPairs (lent_pairs waits.old edges.old) }
    ensures { LassoWritten (lent_pairs waits.old edges.old) (lent_pairs waits.new edges.new) stem.now cycle.now
        (given_work result.stem result.cycle) }
{
    let turn = past_edge(cycle);
    let mut writer = PairWriter {
        waits,
        edges,
        count: 0,
        wait: 0,
    };
    writer.write(stem);
    writer.write(&cycle[..turn]);
    let stem_count = writer.count;
    writer.wait = 0;
    writer.write(&cycle[turn..]);
    writer.write(&cycle[..turn]);
    Lengths {
        stem: stem_count as u16,
        cycle: (writer.count - stem_count) as u16,
    }
}
