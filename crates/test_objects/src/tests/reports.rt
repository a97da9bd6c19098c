//! The objects of reports, faults and refusals.

use rt_values::{List, OutOfMemory, ScopeId, Task};
use run_records::Counter;
use run_reports::{Entry, Fault, Report};
use show_objects::{fault_object, refusal_object, report_object};
use std::alloc::Global;
use std::test::Fail;

/// A report with an entry of each kind.
fn report(alloc: Global) -> Result<Report, OutOfMemory> {
    let mut log = List::new(alloc);
    log.push(Entry::Build)?;
    log.push(Entry::Input(9007199254740993))?;
    log.push(Entry::Heard(ScopeId(1)))?;
    log.push(Entry::Rerun(ScopeId(2)))?;
    log.push(Entry::Poll(Task(3)))?;
    log.push(Entry::Effects(ScopeId(4)))?;
    log.push(Entry::Made(ScopeId(5)))?;
    log.push(Entry::Fed(ScopeId(6)))?;
    log.push(Entry::Kept(ScopeId(7)))?;
    log.push(Entry::Removed(ScopeId(8)))?;
    Ok(Report {
        log,
        units: 1,
        bodies: 2,
        edits: 3,
        default_enabled: false,
    })
}

const REPORT: &str =
    "{\"report\":12,\"units\":1,\"bodies\":2,\"edits\":3,\"default\":false,\"log\":[{\"build\":true},{\"input\":9007199254740993},{\"heard\":1},{\"rerun\":2},{\"poll\":3},{\"effects\":4},{\"made\":5},{\"fed\":6},{\"kept\":7},{\"removed\":8}]}\n";

#[test]
fn a_report_is_one_object(rt: HostRuntime) -> Result<(), Fail> {
    let alloc = rt.alloc();
    let report = report(alloc)?;
    let line = report_object(alloc, 12, &report)?;
    assert_eq!(rt; line.as_slice(), REPORT.as_bytes());
    Ok(())
}

#[test]
fn each_fault_is_one_object(rt: HostRuntime) -> Result<(), Fail> {
    let alloc = rt.alloc();
    let scope = ScopeId(3);
    let what = Counter::Scopes;
    let faults = [
        (
            Fault::OutOfTurns { units: 10000 },
            "{\"fault\":3,\"name\":\"OutOfTurns\",\"units\":10000}\n",
        ),
        (
            Fault::TooDeep { height: 129 },
            "{\"fault\":4,\"name\":\"TooDeep\",\"height\":129}\n",
        ),
        (
            Fault::IdsExhausted { what },
            "{\"fault\":5,\"name\":\"IdsExhausted\",\"what\":\"scopes\"}\n",
        ),
        (
            Fault::HookChanged {
                scope,
                index: 1,
                kept: 0,
                asked: 2,
            },
            "{\"fault\":6,\"name\":\"HookChanged\",\"scope\":3,\"index\":1,\"kept\":0,\"asked\":2}\n",
        ),
        (
            Fault::NoSuchTask {
                scope,
                task: Task(4),
            },
            "{\"fault\":7,\"name\":\"NoSuchTask\",\"scope\":3,\"task\":4}\n",
        ),
        (
            Fault::BadNode { scope },
            "{\"fault\":8,\"name\":\"BadNode\",\"scope\":3}\n",
        ),
    ];
    for (fault, wanted) in faults {
        match fault_object(alloc, fault)? {
            Some(line) => assert_eq!(rt; line.as_slice(), wanted.as_bytes()),
            None => assert!(rt; false, "{wanted}"),
        }
    }
    assert!(rt; fault_object(alloc, Fault::OutOfMemory)?.is_none());
    assert!(rt; fault_object(alloc, Fault::SinkFault)?.is_none());
    Ok(())
}

#[test]
fn a_refusal_is_one_object(rt: HostRuntime) -> Result<(), Fail> {
    assert_eq!(rt; refusal_object(), "{\"refused\":true}\n");
    Ok(())
}
