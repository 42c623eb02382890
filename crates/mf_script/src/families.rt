//! The families of a script, and the family of a file.

use crate::script::Script;
use mf_check::Family;
use mf_policy::Policy;

impl Script {
    ghost use Rattle.std.specs.Prelude.{◌≡◌, ◌<◌, length, option_copied};
    ghost use Rattle.mf_script.specs.Families.{block_at, code_at, policies_in, policy_at, family_of};
    ghost use Rattle.mf_script.specs.Families.{FamiliesFit, FilesBelong};

    /// The version of the format that it is written in.
    pub fn version(&self) -> u32
        ensures { result ≡ 1 }
    {
        1
    }

    /// The number of its families.
    pub fn families(&self) -> u32
        ensures { result ≡ length self.now.families }
    {
        self.families.len() as u32
    }

    /// The name of a family.
    pub fn family_name(&self, i: u32) -> &[u8]
        requires { i < length self.now.families }
        ensures { result.now ≡ (block_at self.now i).name }
    {
        self.families.as_slice()[i as usize].name.as_slice()
    }

    /// A family.
    pub fn family(&self, i: u32) -> &Family
        requires { i < length self.now.families }
        ensures { result.now ≡ code_at self.now i }
    {
        &self.families.as_slice()[i as usize].family
    }

    /// The policies of the families, where they have one, by the numbers of the families. What is
    /// told besides is kept by every script.
    pub fn policies(&self) -> &[Option<Policy>]
        ensures value { result.now ≡ policies_in self.now }
        ensures kept { FamiliesFit self.now }
    {
        std::slice::from_ref(&self.policy)
    }

    /// The policy of a family, if it has one.
    pub fn policy(&self, i: u32) -> Option<&Policy>
        requires { i < length self.now.families }
        ensures { option_copied result ≡ policy_at self.now i }
    {
        self.policies()[i as usize].as_ref()
    }

    /// The number of a file's family.
    pub fn family_of(&self, file: u32) -> u32
        requires { file < length self.now.files }
        ensures number { result ≡ family_of self.now file }
        ensures family { result < length self.now.families }
    {
        self.file_families.as_slice()[file as usize]
    }

    /// The number of each file's family, by the numbers of the files. What is told besides is kept
    /// by every script.
    pub fn file_families(&self) -> &[u32]
        ensures value { result.now ≡ self.now.file_families }
        ensures kept { FilesBelong self.now }
    {
        self.file_families.as_slice()
    }
}
