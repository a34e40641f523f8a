//! The texts of faults.

ghost use Rattle.std.specs.Prelude.{◌≡◌, ◌++◌, ◌<◌, codes, string_bytes, OnOk};
ghost use Rattle.jt_tool.specs.Faults as spec;

use itoa::Buffer;
use jt_base::{Fault, Path};
use std::alloc::AllocError;

/// A hexadecimal digit.
fn hex_digit(digit: u8) -> char
    requires { digit < 16 }
    ensures value { result ≡ spec.hex_digit digit }
    ensures ascii { result < 128 }
{
    char::from(if digit < 10 {
        b'0' + digit
    } else {
        b'a' + (digit - 10)
    })
}

#[tactic(auto, using(std::proofs::lemmas::Str::encode_ascii))]
fn push_byte(text: &mut String, byte: u8) -> Result<(), AllocError>
    ensures { OnOk result (string_bytes text.new ≡ string_bytes text.old ++ spec.hex_byte byte) }
{
    text.push(hex_digit(byte / 16))?;
    text.push(hex_digit(byte % 16))
}

/// Adds the bytes of a text, in hexadecimal behind an `x`.
fn push_hex(text: &mut String, bytes: &[u8]) -> Result<(), AllocError>
    ensures { OnOk result (string_bytes text.new ≡ string_bytes text.old ++ spec.hex_text bytes.now) }
{
    text.push_str("x")?;
    for byte in bytes {
        push_byte(text, *byte)?;
    }
    Ok(())
}

/// Adds a task's path: an `m`, and each index behind a dot.
fn push_path(text: &mut String, path: &Path) -> Result<(), AllocError>
    ensures { OnOk result (string_bytes text.new ≡ string_bytes text.old ++ spec.path_text path.now) }
{
    text.push_str("m")?;
    for index in path.indexes() {
        text.push_str(".")?;
        let mut digits = Buffer::new();
        text.push_str(digits.format(*index))?;
    }
    Ok(())
}

/// Adds the text of the fault that the task of this path failed.
fn push_task_failed(text: &mut String, path: &Path) -> Result<(), AllocError>
    ensures { OnOk result (string_bytes text.new ≡ string_bytes text.old ++ (codes "taskfailed:" ++ spec.path_text path.now)) }
{
    text.push_str("taskfailed:")?;
    push_path(text, path)
}

/// Adds the text of a fault.
pub(crate) fn push_fault(text: &mut String, fault: &Fault) -> Result<(), AllocError>
    ensures { OnOk result (string_bytes text.new ≡ string_bytes text.old ++ spec.fault_text fault.now) }
{
    match fault {
        Fault::Divide => text.push_str("divide"),
        Fault::Domain => text.push_str("domain"),
        Fault::EmptyRange => text.push_str("emptyrange"),
        Fault::Method => text.push_str("method"),
        Fault::Undefined => text.push_str("undefined"),
        Fault::TurnLimit => text.push_str("turnlimit"),
        Fault::StackLimit => text.push_str("stacklimit"),
        Fault::ForkTooDeep => text.push_str("forktoodeep"),
        Fault::ChannelClosed => text.push_str("channelclosed"),
        Fault::NotLocked => text.push_str("notlocked"),
        Fault::NotOwner => text.push_str("notowner"),
        Fault::ReleaseFree => text.push_str("releasefree"),
        Fault::TaskFailed(path) => push_task_failed(text, path),
        Fault::StaticNested => text.push_str("staticnested"),
        Fault::Error(message) => {
            text.push_str("error:")?;
            push_hex(text, message.bytes())
        }
    }
}
