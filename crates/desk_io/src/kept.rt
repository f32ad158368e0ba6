//! A desk that remembers the text that it read last, so that a place in it can be told without a second reading.
//! It forwards each call as it is.

ghost use Rattle.std.specs.Prelude.{◌≡◌, ◌≤◌, IfOk, IsTrue, string_bytes};
ghost use Rattle.desk_io.specs.Answers.{ReadGives, WriteGives};

use crate::{Desk, DeskFail};
use std::alloc::{AllocError, Global};

/// A desk that forwards each call to the one within, and keeps the text that was read last with its name. Where there
/// is no memory for that it keeps none.
#[derive(Drop)]
pub struct KeptText<D> {
    desk: D,
    alloc: Global,
    text: Option<(String, Vec<u8>)>,
}

fn copy_named(alloc: Global, name: &str, bytes: &[u8]) -> Result<(String, Vec<u8>), AllocError>
    ensures name { IfOk result (λ p. string_bytes p.0 ≡ name.now) }
    ensures bytes { IfOk result (λ p. p.1.items ≡ bytes.now) }
{
    let name = String::from_str(alloc, name)?;
    let bytes = bytes.to_vec(alloc)?;
    Ok((name, bytes))
}

impl<D: Desk> KeptText<D> {
    ghost use Rattle.std.specs.Prelude.{◌≡◌, None, Some, IfSome, IsSome};
    ghost use Rattle.desk_io.specs.Kept.{desk_of, kept_of};

    /// Keeps what will be read from `desk`.
    pub fn new(alloc: Global, desk: D) -> KeptText<D>
        ensures desk { desk_of result ≡ desk }
        ensures text { kept_of result ≡ None }
    {
        KeptText {
            desk,
            alloc,
            text: None,
        }
    }

    /// The text that was read last, where that was of this name and there was memory to keep it.
    pub fn text_of(&self, name: &str) -> Option<&[u8]>
        ensures { IfSome result (λ text. kept_of self.now ≡ Some (name.now, text.now)) }
    {
        match &self.text {
            Some((kept, text)) if kept.as_str() == name => Some(text),
            _ => None,
        }
    }
}

impl<D: Desk> Desk for KeptText<D> {
    ghost use Rattle.desk_io.specs.Kept.{desk_of, kept_of, KeepsRead};

    ghost state = { λ k. D.state (desk_of k) };

    ghost faults_end = { λ k. D.faults_end (desk_of k) };

    ghost calm_tells = { λ k. D.calm_tells (desk_of k) };

    fn read(&mut self, name: &str, limit: u64) -> Result<Vec<u8>, DeskFail>
        ensures gives { ReadGives (D.state (desk_of self.old)) (D.state (desk_of self.new)) name.now limit result }
        ensures files { (D.state (desk_of self.new)).files ≡ (D.state (desk_of self.old)).files }
        ensures faults { (D.state (desk_of self.old)).faults ≤ (D.state (desk_of self.new)).faults }
        ensures calm { IsTrue (D.state (desk_of self.old)).calm → IsTrue (D.state (desk_of self.new)).calm }
        ensures keeps { KeepsRead self.old self.new name.now result }
    {
        match self.desk.read(name, limit) {
            Ok(bytes) => {
                self.text = copy_named(self.alloc, name, &bytes).ok();
                Ok(bytes)
            }
            Err(fail) => Err(fail),
        }
    }

    fn write(&mut self, name: &str, bytes: &[u8]) -> Result<(), DeskFail>
        ensures gives { WriteGives (D.state (desk_of self.old)) (D.state (desk_of self.new)) name.now bytes.now result }
        ensures faults { (D.state (desk_of self.old)).faults ≤ (D.state (desk_of self.new)).faults }
        ensures calm { IsTrue (D.state (desk_of self.old)).calm → IsTrue (D.state (desk_of self.new)).calm }
        ensures keeps { kept_of self.new ≡ kept_of self.old }
    {
        self.desk.write(name, bytes)
    }
}
