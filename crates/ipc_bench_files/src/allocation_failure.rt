//! Allocations that fail while files are written, read and appended to.
//!
//! Batches are also read. In an ordinary run no allocation fails. `make refused` runs the tests
//! with each of their allocations failing in turn.

use crate::scenario::{Scenario, ScenarioRun, make_file_fixture};
use crate::{append, append_sessions, batch_read, file_read, file_write};
use arrow2_ipc::io::ipc::fault::Fault;
use bench_devices::failing_runs::FailingRun;
use bench_devices::faulty::NEVER;
use bench_devices::trace::Alternatives;

// Each scenario, and its traces: first that without a failed allocation, then those of which it may
// have another where one fails. A writer's call that failed is made again. A reader of a file
// continues with the next block, and a session with the next chunk. `finish` allocates nothing.
const SCENARIOS: [(&str, Scenario, &[&str]); 6] = [
    (
        "a file is written",
        Scenario::WriteFile,
        file_write::ON_ALLOCATION_FAILURE,
    ),
    (
        "a file is started",
        Scenario::StartFile,
        file_write::START_ON_ALLOCATION_FAILURE,
    ),
    (
        "a file is read",
        Scenario::ReadFile,
        file_read::ON_ALLOCATION_FAILURE,
    ),
    (
        "a file is appended to",
        Scenario::Append,
        append::ON_ALLOCATION_FAILURE,
    ),
    (
        "a file is appended to twice",
        Scenario::AppendTwice,
        append_sessions::ON_ALLOCATION_FAILURE,
    ),
    (
        "batches are read",
        Scenario::ReadBatches,
        batch_read::ON_ALLOCATION_FAILURE,
    ),
];

#[test]
fn any_allocation_of_a_scenario_may_fail(rt: HostRuntime) -> Result<(), Fault> {
    let alloc = rt.alloc();
    let fixture = make_file_fixture(alloc, false)?;
    for (name, scenario, expected) in SCENARIOS {
        let run = ScenarioRun {
            fixture: &fixture,
            scenario,
        };
        let trace = run.run(alloc, NEVER)?;
        let texts = Alternatives(expected);
        assert!(rt;
            trace.is_one_of(expected),
            "{name}\nexpected one of:{texts}\ngot:{trace}"
        );
    }
    Ok(())
}
