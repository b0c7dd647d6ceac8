ghost use Rattle.std.specs.Prelude.{◌≡◌, ◌<◌, Option, None, IfSome};
ghost use Rattle.unix_definition.specs.Opened.{number_at, description_of, numbered_at, free_descriptor, free_description, free_places, with_descriptor, with_description, is_referred, is_open, is_of_node, without_unreferred};
ghost use Rattle.unix_definition.specs.Unix.{opened_first};

use crate::description::Description;
use crate::target::Target;

/// The 64 descriptors of a program, and the descriptions that they stand for.
#[derive(Drop)]
pub struct Opened {
    pub descriptors: [Option<usize>; 64],
    pub descriptions: [Option<Description>; 64],
}

impl Opened {
    /// Descriptors 0, 1 and 2 are input, output and error output.
    pub fn first() -> Opened
        ensures { result ≡ opened_first }
    {
        let mut descriptors = [None; 64];
        let mut descriptions = [None; 64];
        descriptors[0] = Some(0);
        descriptors[1] = Some(1);
        descriptors[2] = Some(2);
        descriptions[0] = Some(Description::of_console(Target::Input));
        descriptions[1] = Some(Description::of_console(Target::Output));
        descriptions[2] = Some(Description::of_console(Target::ErrorOutput));
        Opened {
            descriptors,
            descriptions,
        }
    }

    /// The number of the description that a descriptor stands for.
    pub fn number(&self, fd: u32) -> Option<usize>
        ensures value { result ≡ number_at self.now fd }
        ensures within { IfSome result (λ _. fd < 64) }
    {
        match self.descriptors.get(fd as usize) {
            Some(number) => *number,
            None => None,
        }
    }

    pub fn description(&self, d: usize) -> Option<Description>
        ensures value { result ≡ description_of self.now d }
        ensures within { IfSome result (λ _. d < 64) }
    {
        match self.descriptions.get(d) {
            Some(description) => *description,
            None => None,
        }
    }

    /// The description that a descriptor stands for, with its number.
    pub fn at(&self, fd: u32) -> Option<(usize, Description)>
        ensures value { result ≡ numbered_at self.now fd }
        ensures within { IfSome result (λ found. found.0 < 64) }
    {
        let d = self.number(fd)?;
        let description = self.description(d)?;
        Some((d, description))
    }

    /// The lowest descriptor that is not in use.
    pub fn free_descriptor(&self) -> Option<usize>
        ensures value { result ≡ free_descriptor self.now }
        ensures within { IfSome result (λ fd. fd < 64) }
    {
        self.descriptors.iter().position(|number| number.is_none())
    }

    /// The lowest number that no description has.
    pub fn free_description(&self) -> Option<usize>
        ensures value { result ≡ free_description self.now }
        ensures within { IfSome result (λ d. d < 64) }
    {
        self.descriptions
            .iter()
            .position(|description| description.is_none())
    }

    /// A free descriptor, and a number for a description of its own.
    pub fn free_places(&self) -> Option<(usize, usize)>
        ensures value { result ≡ free_places self.now }
        ensures within { IfSome result (λ free. (free.0 < 64) × (free.1 < 64)) }
    {
        let fd = self.free_descriptor()?;
        let d = self.free_description()?;
        Some((fd, d))
    }

    pub fn set_descriptor(&mut self, fd: usize, number: Option<usize>)
        requires { fd < 64 }
        ensures { self.new ≡ with_descriptor self.old fd number }
    {
        self.descriptors[fd] = number;
    }

    pub fn set_description(&mut self, d: usize, description: Option<Description>)
        requires { d < 64 }
        ensures { self.new ≡ with_description self.old d description }
    {
        self.descriptions[d] = description;
    }

    /// Drops a description to which no descriptor refers.
    pub fn release(&mut self, d: usize)
        ensures { self.new ≡ without_unreferred self.old d }
    {
        if !self.is_referred(d) {
            self.drop_description(d);
        }
    }

    fn drop_description(&mut self, d: usize)
        ensures { self.new ≡ with_description self.old d None }
    {
        if d < self.descriptions.len() {
            self.descriptions[d] = None;
        }
    }

    /// Whether some descriptor stands for a description.
    pub fn is_referred(&self, d: usize) -> bool
        ensures { result ≡ is_referred self.now d }
    {
        self.descriptors.iter().any(|number| *number == Some(d))
    }

    /// Whether some description is of a file.
    pub fn is_open(&self, n: usize) -> bool
        ensures { result ≡ is_open self.now n }
    {
        self.descriptions
            .iter()
            .any(|description| is_of_node(description, n))
    }
}

fn is_of_node(description: &Option<Description>, n: usize) -> bool
    ensures { result ≡ is_of_node n description.now }
{
    match description {
        Some(description) => description.target == Target::File(n),
        None => false,
    }
}
