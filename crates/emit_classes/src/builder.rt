//! Classes that are made.
ghost use Rattle.std.specs.Prelude.{◌≡◌, ◌≢◌, ◌+◌, ◌<◌, ◌≤◌, ◌⊎◌, ◌&&◌, true, false, [], ◌∷◌, ◌++◌, length, None, IfOk, OnOk, OnErr, Err};
ghost use Rattle.class_definition.specs.NameGrammar.{is_class_file_name, is_member_name, is_field_descriptor};
ghost use Rattle.class_definition.specs.Named.{is_own_descriptor};
ghost use Rattle.class_definition.specs.ClassFile.{Spells, class_fault};
ghost use Rattle.class_definition.specs.MemberNames.{object_name};
ghost use Rattle.emit_assembly.specs.Assembling.{slots_of};
ghost use Rattle.emit_classes.specs.Named.{IsTextAt, IsClassAt, IsFieldAt, IsMethodAt};
ghost use Rattle.emit_classes.specs.Lawful.{names_class, is_member};
ghost use Rattle.emit_classes.specs.Code.{is_code};
ghost use Rattle.emit_classes.specs.Built.{GrowsPool, AddsField, AddsMethod, LacksRoom, is_long_text};
ghost use Rattle.emit_classes.specs.Mentioned.{Mentions, MentionsOf, OfClass, field_mention, mentioned, method_mention};
ghost use Rattle.emit_classes.specs.declared.error.BuildError.TheVariants.{Full, Unlawful};

use crate::beginning::{code_slot, object_slot, own_slot};
use crate::error::BuildError;
use crate::member_kind::MemberKind;
use crate::names::{field_slots, method_slots};
use crate::references::{class_slot, member_slot};
use crate::sound_pool::SoundPool;
use class_writer::{WriteError, write_class};
use constant_pool::NoMemory;
use emit_assembly::References;
use emit_steps::Step;
use jvm_code::{Class, Member, Method};
use jvm_definition::Sequence;
use std::alloc::{AllocError, Global};
use std::marker::Model;

/// The greatest number of fields, and of methods.
const MAX_MEMBERS: usize = 65_535;

/// `max_stack` of every method, which is enough for the code that a translator emits.
const MAX_STACK: u16 = 16;

/// A class file that is made member by member (JVM Specification, 4): public and final, under `java/lang/Object`.
///
/// A contract sees it as the class so far, which could be written at any time. Names and descriptors are taken as ASCII.
#[derive(Drop)]
pub struct ClassBuilder {
    pool: SoundPool,
    this_class: u16,
    super_class: u16,
    // The slot of the text `Code`.
    code: u16,
    fields: Vec<Member>,
    methods: Vec<Method>,
}

impl Model for ClassBuilder {
    ghost use Rattle.class_definition.specs.declared.class.Class.{Class};

    ghost Value = { Class };

    ghost use Rattle.emit_classes.specs.Inside.{class_so_far, CanBeWritten};

    ghost view = { class_so_far };

    ghost invariant = { CanBeWritten };
}

impl ClassBuilder {
    /// A class without members. Its name begins its pool.
    ///
    /// # Errors
    /// Full where the name is too long, Unlawful where it is no class's, NoMemory.
    pub fn new(alloc: Global, name: &str) -> Result<ClassBuilder, BuildError>
        ensures named { IfOk result (λ b. IsClassAt b.pool b.this_class name.now) }
        ensures fields { IfOk result (λ b. b.fields ≡ []) }
        ensures methods { IfOk result (λ b. b.methods ≡ []) }
        ensures few { IfOk result (λ b. length b.pool ≤ 5) }
        ensures mentions { IfOk result (λ b.
            Mentions b.pool (OfClass name.now ∷ OfClass object_name ∷ [])) }
        ensures full { result ≡ Err Full → is_long_text name.now ≡ true }
        ensures unlawful { result ≡ Err Unlawful → is_class_file_name name.now ≡ false }
    {
        let mut pool = SoundPool::new(alloc)?;
        let this_class = own_slot(alloc, &mut pool, name)?;
        let super_class = object_slot(alloc, &mut pool)?;
        let code = code_slot(alloc, &mut pool)?;
        Ok(ClassBuilder {
            pool,
            this_class,
            super_class,
            code,
            fields: Vec::new(alloc),
            methods: Vec::new(alloc),
        })
    }

    /// The slot of a class, or of a type of arrays of ints (`[I` or `[[I`).
    ///
    /// # Errors
    /// Full, Unlawful where the name is none, NoMemory. After each, entries may be in the pool after what was there.
    pub fn class_reference(&mut self, alloc: Global, name: &str) -> Result<u16, BuildError>
        ensures there { IfOk result (λ slot. IsClassAt self.new.pool slot name.now) }
        ensures grown { GrowsPool self.old self.new 2 }
        ensures mentions { OnOk result (Mentions self.new.pool (mentioned self.old.pool
            ++ OfClass name.now ∷ [])) }
        ensures full { result ≡ Err Full → LacksRoom self.old.pool 2 (name.now ∷ []) }
        ensures unlawful { result ≡ Err Unlawful → names_class name.now ≡ false }
    {
        class_slot(alloc, &mut self.pool, name)
    }

    /// The slot of a field of the class in a slot.
    ///
    /// # Errors
    /// Full, Unlawful where no class is in the slot, or the name or the descriptor is none, NoMemory. After each, entries may
    /// are in the pool after what was there.
    pub fn field_reference(
        &mut self,
        alloc: Global,
        class: u16,
        name: &str,
        descriptor: &str,
    ) -> Result<u16, BuildError>
        ensures there { IfOk result (λ slot.
            IsFieldAt self.new.pool slot class name.now descriptor.now) }
        ensures grown { GrowsPool self.old self.new 4 }
        ensures mentions { OnOk result (MentionsOf self.old.pool self.new.pool class
            (λ owner. field_mention owner name.now descriptor.now ∷ [])) }
        ensures full { result ≡ Err Full
            → LacksRoom self.old.pool 4 (name.now ∷ descriptor.now ∷ []) }
        ensures unlawful { result ≡ Err Unlawful
            → is_member MemberKind.Field self.old.pool class name.now descriptor.now ≡ false }
    {
        member_slot(
            alloc,
            &mut self.pool,
            MemberKind::Field,
            class,
            name,
            descriptor,
        )
    }

    /// The slot of a method of the class in a slot, which is the class itself, another one that is made, or one of the host.
    ///
    /// # Errors
    /// As for a field.
    pub fn method_reference(
        &mut self,
        alloc: Global,
        class: u16,
        name: &str,
        descriptor: &str,
    ) -> Result<u16, BuildError>
        ensures there { IfOk result (λ slot.
            IsMethodAt self.new.pool slot class name.now descriptor.now) }
        ensures grown { GrowsPool self.old self.new 4 }
        ensures mentions { OnOk result (MentionsOf self.old.pool self.new.pool class
            (λ owner. method_mention owner name.now descriptor.now ∷ [])) }
        ensures full { result ≡ Err Full
            → LacksRoom self.old.pool 4 (name.now ∷ descriptor.now ∷ []) }
        ensures unlawful { result ≡ Err Unlawful
            → is_member MemberKind.Method self.old.pool class name.now descriptor.now ≡ false }
    {
        member_slot(
            alloc,
            &mut self.pool,
            MemberKind::Method,
            class,
            name,
            descriptor,
        )
    }

    /// Puts a field after the others.
    ///
    /// # Errors
    /// Full, Unlawful where the name or the descriptor is none of a field, NoMemory. After each, entries may be in the pool after
    /// what was there.
    pub fn add_field(
        &mut self,
        alloc: Global,
        name: &str,
        descriptor: &str,
    ) -> Result<(), BuildError>
        ensures added { OnOk result (AddsField self.old self.new name.now descriptor.now) }
        ensures err { OnErr result (GrowsPool self.old self.new 2) }
        ensures full { result ≡ Err Full → (65535 ≤ length self.old.fields)
            ⊎ LacksRoom self.old.pool 2 (name.now ∷ descriptor.now ∷ []) }
        ensures unlawful { result ≡ Err Unlawful
            → (is_member_name name.now && is_field_descriptor descriptor.now) ≡ false }
    {
        if MAX_MEMBERS <= self.fields.len() {
            return Err(BuildError::Full);
        }
        let field = field_slots(alloc, &mut self.pool, name, descriptor)?;
        self.fields.push(field)?;
        Ok(())
    }

    /// Puts a method after the others, with at most 16 operands and so many local variables. Its code is made of the steps, as
    /// [`method_code`](code_assembly::method_code) makes it. They are known to be the code of a method
    /// ([`is_code`](code_assembly::is_code)), each text that they push is in its slot, and there are less than 65,535 methods.
    ///
    /// # Errors
    /// Full, Unlawful where the name or the descriptor is none of a method of the class itself, NoMemory. After each, entries may be
    /// in the pool after what was there.
    pub fn put_method(
        &mut self,
        alloc: Global,
        name: &str,
        descriptor: &str,
        locals: u16,
        code: &[Step],
        references: &References,
    ) -> Result<(), BuildError>
        requires few { length self.old.methods < 65535 }
        requires code { is_code references.now self.old.pool code.now ≡ true }
        ensures added { OnOk result
            (AddsMethod self.old self.new name.now descriptor.now locals references.now
            code.now) }
        ensures err { OnErr result (GrowsPool self.old self.new (2 + slots_of code.now)) }
        ensures full { result ≡ Err Full
            → LacksRoom self.old.pool (2 + slots_of code.now) (name.now ∷ descriptor.now ∷ []) }
        ensures unlawful { result ≡ Err Unlawful
            → (is_member_name name.now && is_own_descriptor descriptor.now) ≡ false }
    {
        let slots = method_slots(alloc, &mut self.pool, name, descriptor)?;
        let bytes = self.pool.add_code(alloc, code, references)?;
        self.methods.push(Method {
            name: slots.name,
            desc: slots.desc,
            attr: self.code,
            stack: MAX_STACK,
            locals,
            code: Sequence::new(bytes),
        })?;
        Ok(())
    }

    /// The slot of a text, which code may push.
    ///
    /// # Errors
    /// Full, NoMemory. After each the class is the same, or a text is in the pool after what was there.
    pub fn text(&mut self, characters: Vec<u16>) -> Result<u16, BuildError>
        ensures there { IfOk result (λ slot. IsTextAt self.new.pool slot characters.items) }
        ensures grown { GrowsPool self.old self.new 1 }
        ensures mentions { OnOk result (Mentions self.new.pool (mentioned self.old.pool)) }
        ensures full { result ≡ Err Full → LacksRoom self.old.pool 1 (characters.items ∷ []) }
        ensures lawful { result ≢ Err Unlawful }
    {
        Ok(self.pool.add_text(characters)?)
    }

    /// The bytes of the class, of which `read_class` makes it again.
    ///
    /// # Errors
    /// NoMemory alone.
    pub fn finish(self, alloc: Global) -> Result<Vec<u8>, NoMemory>
        ensures spelled { IfOk result (λ bytes. Spells bytes.items self) }
        ensures sound { IfOk result (λ bytes. class_fault bytes.items ≡ None) }
    {
        let class = Class {
            pool: Sequence::new(self.pool.entries(alloc)?),
            this_class: self.this_class,
            super_class: self.super_class,
            fields: Sequence::new(self.fields),
            methods: Sequence::new(self.methods),
        };
        match write_class(alloc, &class) {
            Ok(bytes) => Ok(bytes),
            Err(WriteError::TooLong(_)) => unreachable!(),
            Err(WriteError::NoMemory) => Err(AllocError),
        }
    }
}
