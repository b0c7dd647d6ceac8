ghost use Rattle.class_definition.specs.Linking.{program_of};
ghost use Rattle.jvm_type_inference.specs.Verdict.{AllLeastTyped};
ghost use Rattle.jvm_type_inference.proofs.Unique.{AllLeastTyped-prop};

use jvm_link::Linked;

/// Linked classes of which each method has a typing, and so a least one (JVM Specification, 4.10).
#[derive(Drop)]
pub struct Verified {
    pub linked: Linked,
    pub ghost typed: { AllLeastTyped (program_of linked.classes) } by { AllLeastTyped-prop (program_of linked.classes) },
}
