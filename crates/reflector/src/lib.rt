// The reflector (leaf 9; `handle_datagram` of the Rust's reflector.rs after its decode): a message, whose TEID is
// looked for in the session table, and what is answered to it. Its contract is one definition of specs/: the answer,
// the counts, the error sequence and every byte of the output, on refusals too.
#![tactic(auto)]

ghost use Rattle.std.specs.Prelude.{◌≡◌};
ghost use Rattle.reflector_answer.specs.Handle.{HandledAs};
ghost use Rattle.reflector.specs.Handle.{session_found, handle_datagram};

use error::Refusal;
use gtpu::GtpuMessage;
use reflector_answer::{MultiSessionReflectorConfig, ReflectorAction, ReflectorState};
use reflector_sessions::{FoundSession, ReflectorSession, Sessions, SocketAddr};

// The session of the row that a search found.
fn session_of(found: Option<FoundSession>) -> Option<ReflectorSession>
    ensures { result ≡ session_found found }
{
    match found {
        Some(row) => Some(row.session),
        None => None,
    }
}

// Handles a message: 30, 31, 15, then by its type.
pub fn handle_datagram(
    rows: &[ReflectorSession],
    used: usize,
    config: MultiSessionReflectorConfig,
    state: &mut ReflectorState,
    source: SocketAddr,
    message: GtpuMessage,
    payload: &[u8],
    out: &mut [u8],
) -> Result<ReflectorAction, Refusal>
    ensures { HandledAs result state.new out.new
        (handle_datagram rows.now used config state.old source message payload.now out.old)
        out.old }
{
    let sessions = Sessions {
        rows,
        used,
        max_sessions: config.max_sessions,
    };
    let session = session_of(reflector_sessions::find_session(sessions, message.teid));
    reflector_answer::handle_found(
        rows.len(),
        used,
        config,
        state,
        session,
        source,
        message,
        payload,
        out,
    )
}
