//! What names stand for at a place of a text.
ghost use Rattle.std.specs.Prelude.{◌≡◌, Some, None, [], if◌then◌else◌, slice_get, IfSome, ◌∷◌};
ghost use Rattle.np_model.specs.Types.{fits};
ghost use Rattle.np_names.specs.Names.{is_among, number_of};
ghost use Rattle.np_declared.specs.Symbols.{object_names, symbol_names};
ghost use Rattle.np_typing.specs.Scopes.{is_known, ref_of, type_of_ref};
ghost use Rattle.np_typing.specs.Uses.{unknown, wrong_type, object_faults};
ghost use Rattle.np_names.specs.Answers.{Answers};
ghost use Rattle.np_declared.specs.LookUps.{TablesAgree};
ghost use Rattle.np_typing.specs.LookUps.{scope_from};
ghost use Rattle.np_typing.specs.Resolved.{predicate_number, function_number};
ghost use Rattle.std.specs.Option.{option_map};

use np_declared::{Names, Source, Tables, TypeFault, TypeWhy};
use np_lex::Place;
use np_model::{Object, Ref, Signature, TypeName, is_under, type_of};
use np_syntax::{Ident, Word};
use std::marker::Model;

/// What is declared, and the parameters that variables name, with their types. Contracts see it without the look-ups.
#[derive(Drop)]
pub struct Scope<'a> {
    source: Source,
    types: &'a [TypeName],
    objects: &'a [Object],
    object_names: &'a Names<'a>,
    predicates: &'a [Signature],
    predicate_names: &'a Names<'a>,
    functions: &'a [Signature],
    function_names: &'a Names<'a>,
    variables: &'a Names<'a>,
    variable_types: &'a [u32],
}

impl<'a> Model for Scope<'a> {
    ghost use Rattle.np_typing.specs.Scopes.{Scope};
    ghost use Rattle.np_declared.specs.ScopeNames.{ScopeAgrees};

    ghost Value = { Scope };

    ghost view = { λ s. record {
      source = s.source;
      types = s.types.now;
      objects = s.objects.now;
      predicates = s.predicates.now;
      functions = s.functions.now;
      variables = s.variables.now;
      variable_types = s.variable_types.now;
    } };

    ghost invariant = { λ s. ScopeAgrees s.object_names.now s.objects.now s.predicate_names.now s.predicates.now s.function_names.now s.functions.now };
}

impl<'a> Scope<'a> {
    /// The scope of a text, where these variables name parameters of these types.
    pub fn new(
        source: Source,
        tables: &'a Tables<'a>,
        variables: &'a Names<'a>,
        variable_types: &'a [u32],
    ) -> Scope<'a>
        requires { TablesAgree tables.now }
        ensures { result ≡ record (scope_from source tables.now) { variables = variables.now; variable_types = variable_types.now } }
    {
        Scope {
            source,
            types: tables.types.as_slice(),
            objects: tables.objects.as_slice(),
            object_names: &tables.object_names,
            predicates: tables.predicates.as_slice(),
            predicate_names: &tables.predicate_names,
            functions: tables.functions.as_slice(),
            function_names: &tables.function_names,
            variables,
            variable_types,
        }
    }

    /// A fault in this text.
    pub fn fault(&self, place: Place, why: TypeWhy) -> TypeFault
        ensures { result ≡ TypeFault.At self.now.source place why }
    {
        TypeFault::At(self.source, place, why)
    }

    /// The number of an object.
    pub fn object(&self, word: &Word) -> Option<u32>
        ensures { result ≡ (if is_among word.now.text (object_names self.now.objects) then Some (number_of (object_names self.now.objects) word.now.text) else None) }
    {
        self.object_names.find(&word.text)
    }

    /// The number of the parameter that a variable names.
    pub fn variable(&self, word: &Word) -> Option<u32>
        ensures { result ≡ (if is_among word.now.text self.now.variables then Some (number_of self.now.variables word.now.text) else None) }
    {
        self.variables.find(&word.text)
    }

    /// What an object's name or a variable stands for.
    pub fn find(&self, ident: &Ident) -> Option<Ref>
        ensures { result ≡ (if is_known self.now ident.now then Some (ref_of self.now ident.now) else None) }
    {
        match ident {
            Ident::Name(word) => Some(Ref::Object(self.object_names.find(&word.text)?)),
            Ident::Variable(word) => Some(Ref::Parameter(self.variables.find(&word.text)?)),
        }
    }

    /// The fault where it isn't declared.
    pub fn unknown(&self, ident: &Ident) -> TypeFault
        ensures { unknown self.now ident.now ≡ result ∷ [] }
    {
        match ident {
            Ident::Name(word) => self.fault(word.place, TypeWhy::UnknownName),
            Ident::Variable(word) => self.fault(word.place, TypeWhy::Unbound),
        }
    }

    /// The fault where it has another type than it has to have.
    pub fn wrong_type(&self, ident: &Ident) -> TypeFault
        ensures { wrong_type self.now ident.now ≡ result ∷ [] }
    {
        match ident {
            Ident::Name(word) => self.fault(word.place, TypeWhy::WrongType),
            Ident::Variable(word) => self.fault(word.place, TypeWhy::WrongType),
        }
    }

    /// What it stands for, and the fault where it isn't declared.
    pub fn known(&self, ident: &Ident) -> Result<Ref, TypeFault>
        ensures { Answers (object_faults self.now ident.now) (λ r. r ≡ ref_of self.now ident.now) result }
    {
        match self.find(ident) {
            Some(part) => Ok(part),
            None => Err(self.unknown(ident)),
        }
    }

    /// The type of what a reference stands for.
    pub fn type_of(&self, part: Ref) -> Option<u32>
        ensures { result ≡ type_of_ref self.now part }
    {
        match part {
            Ref::Object(number) => type_of(self.objects, number),
            Ref::Parameter(place) => self.variable_types.get(place as usize).copied(),
        }
    }

    /// Whether what a reference stands for fits a parameter of this type.
    pub fn fits(&self, wanted: u32, part: Ref) -> bool
        ensures { result ≡ fits self.now.types wanted (type_of_ref self.now part) }
    {
        match self.type_of(part) {
            Some(of) => is_under(self.types, of, wanted),
            None => false,
        }
    }

    /// A predicate with its number.
    pub fn predicate(&self, word: &Word) -> Option<(u32, &'a Signature)>
        ensures found { option_map (λ p. p.1.now) result ≡ slice_get self.now.predicates (predicate_number self.now word.now) }
        ensures number { IfSome result (λ p. p.0 ≡ predicate_number self.now word.now) }
    {
        let number = self.predicate_names.find(&word.text)?;
        let signature = self.predicates.get(number as usize)?;
        Some((number, signature))
    }

    /// A function with its number.
    pub fn function(&self, word: &Word) -> Option<(u32, &'a Signature)>
        ensures found { option_map (λ p. p.1.now) result ≡ slice_get self.now.functions (function_number self.now word.now) }
        ensures number { IfSome result (λ p. p.0 ≡ function_number self.now word.now) }
    {
        let number = self.function_names.find(&word.text)?;
        let signature = self.functions.get(number as usize)?;
        Some((number, signature))
    }
}
