//! What an instruction does that makes no frame and ends none.
ghost use Rattle.class_definition.specs.Linking.{program_of};
ghost use Rattle.jvm_instructions.specs.Workings.{Keeps, TextsFit};
ghost use Rattle.jvm_instructions.specs.Ready.{IsReady};
ghost use Rattle.jvm_instructions.specs.Executes.{Executes};

use crate::executed::Executed;
use crate::working::Working;
use jvm_activations::Trap;
use jvm_code::Class;
use jvm_definition::Instruction;

impl Working {
    /// Executes an instruction whose targets are indices. Calls, returns and ends are only told.
    ///
    /// # Errors
    ///
    /// The trap, before which nothing is changed.
    pub fn execute(
        &mut self,
        classes: &[Class],
        instruction: &Instruction,
    ) -> Result<Executed, Trap>
        requires fit { TextsFit classes.now }
        requires ready { IsReady (program_of classes.now) instruction.now self.old }
        ensures executes { Executes (program_of classes.now)
            instruction.now self.old self.new result }
        ensures keeps { Keeps self.old self.new }
    {
        match instruction {
            Instruction::Nop => {}
            Instruction::Push(constant) => self.push_constant(*constant),
            Instruction::Load(kind, i) => self.load(*kind, *i),
            Instruction::Store(kind, i) => self.store(*kind, *i),
            Instruction::Array(name) => self.access(*name)?,
            Instruction::Stack(name) => self.shuffle(*name),
            Instruction::IntArithmetic(name) => self.int_arithmetic(*name),
            Instruction::IntDivision(name) => self.int_division(*name)?,
            Instruction::IntShift(name) => self.int_shift(*name),
            Instruction::LongArithmetic(name) => self.long_arithmetic(*name),
            Instruction::LongDivision(name) => self.long_division(*name)?,
            Instruction::LongShift(name) => self.long_shift(*name),
            Instruction::Increment(i, by) => self.increment(*i, *by),
            Instruction::Convert(name) => self.convert(*name),
            Instruction::LongCompare => self.long_compare(),
            Instruction::Branch(name, target) => return Ok(self.branch(*name, *target)),
            Instruction::TableSwitch(switch) => {
                return Ok(Executed::Jump(self.table_switch(switch.get())));
            }
            Instruction::LookupSwitch(switch) => {
                return Ok(Executed::Jump(self.lookup_switch(switch.get())));
            }
            Instruction::Get(field, kind) => self.get_field(*field, *kind),
            Instruction::Put(field, kind) => self.put_field(*field, *kind),
            Instruction::Length => self.text_length(classes)?,
            Instruction::CharAt => self.character(classes)?,
            Instruction::Call(method) => return Ok(Executed::Call(*method)),
            Instruction::CallHost => return Ok(Executed::CallHost),
            Instruction::FaultHost => return Ok(Executed::FaultHost),
            Instruction::Return(name) => return Ok(Executed::Return(*name)),
            Instruction::NewArray(kind) => self.new_array(*kind)?,
            Instruction::ArrayLength => self.measure()?,
            Instruction::Wrong => unreachable!(),
        }
        Ok(Executed::On)
    }
}
