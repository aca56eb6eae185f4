// The reflector's calls for C on a table of six rows that the caller holds by value. Registering and removal hand the
// rows back with the answer, so that callers such as the replay lend no rows themselves.
#![tactic(auto)]

ghost use Rattle.reflector_sessions.specs.Session.{value_of};
ghost use Rattle.reflector_sessions.specs.Table.{table_of};
ghost use Rattle.reflector_sessions.specs.Register.{register_session};
ghost use Rattle.reflector_sessions.specs.Remove.{remove_session};
ghost use Rattle.reflector.specs.Handle.{handle_datagram};
ghost use Rattle.testkit_reflector.specs.Interface.{RegistersNumbers, RemovesNumbers, AnswersNumbers, config_of};
ghost use Rattle.testkit_reflector.specs.Interface.{message_of};

use reflector_answer::ReflectorState;
use reflector_sessions::{LentSocketAddr, ReflectorSession};
use testkit_reflector::{
    TestkitGtpuMessage, TestkitHandled, TestkitReflectorConfig, TestkitRegistered, TestkitRemoved,
};

// What registering answers, and the rows that it leaves.
#[derive(Clone, Copy)]
pub struct RegisteredRows {
    pub registered: TestkitRegistered,
    pub rows: [ReflectorSession; 6],
}

// What removal answers, and the rows that it leaves.
#[derive(Clone, Copy)]
pub struct RemovedRows {
    pub removed: TestkitRemoved,
    pub rows: [ReflectorSession; 6],
}

// `testkit_reflector::testkit_register_session`
pub fn register_session(
    mut rows: [ReflectorSession; 6],
    used: usize,
    max_sessions: usize,
    session: ReflectorSession,
) -> RegisteredRows
    ensures { RegistersNumbers result.registered result.rows
        (register_session (table_of rows used max_sessions) session) }
{
    let registered = testkit_reflector::testkit_register_session(
        &mut rows,
        used,
        max_sessions,
        session,
    );
    RegisteredRows { registered, rows }
}

// `testkit_reflector::testkit_remove_session`
pub fn remove_session(
    mut rows: [ReflectorSession; 6],
    used: usize,
    max_sessions: usize,
    local_teid: u32,
) -> RemovedRows
    ensures { RemovesNumbers result.removed result.rows
        (remove_session (table_of rows used max_sessions) local_teid) }
{
    let removed = testkit_reflector::testkit_remove_session(
        &mut rows,
        used,
        max_sessions,
        local_teid,
    );
    RemovedRows { removed, rows }
}

// `testkit_reflector::testkit_handle_datagram`
pub fn handle_datagram(
    rows: [ReflectorSession; 6],
    used: usize,
    config: TestkitReflectorConfig,
    state: ReflectorState,
    source: LentSocketAddr,
    message: TestkitGtpuMessage,
    payload: &[u8],
    out: &mut [u8],
) -> TestkitHandled
    ensures { AnswersNumbers result out.new
        (handle_datagram rows used (config_of config) state (value_of source) (message_of message)
        payload.now out.old) out.old }
{
    testkit_reflector::testkit_handle_datagram(
        &rows, used, config, state, source, message, payload, out,
    )
}
