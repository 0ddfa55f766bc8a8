//! Laws of the strings that `Display` writes for kinds, types and widths, and of `==` and clones.
//!
//! Each impl of `Display` has its string as `ghost output`, and the law states it by a definition.

ghost use Rattle.std.specs.Prelude.{Some, true, ◌↔◌, ◌≡◌};
ghost use Rattle.rkyv_container.specs.{kind_text, type_text, width_text};

use crate::contents::{Contents, ItemType, Kind, Width};
use crate::errors::ContainerError;
use crate::header::Header;
use std::fmt;

/// States the strings that `Display` writes for kinds, types and widths.
pub fn displayed_as_named()
    ensures kind { (kind : Kind) → ⟦<Kind as fmt::Display>⟧.output kind ≡ Some (kind_text kind) }
    ensures item { (item : ItemType)
        → ⟦<ItemType as fmt::Display>⟧.output item ≡ Some (type_text item) }
    ensures width { (width : Width)
        → ⟦<Width as fmt::Display>⟧.output width ≡ Some (width_text width) }
{}

/// States that two values are equal by `==` if and only if they are the same.
pub fn equal_are_the_same()
    ensures kind { (a b : Kind) → (⟦<Kind as PartialEq>⟧.eq a b ≡ true) ↔ (a ≡ b) }
    ensures item { (a b : ItemType) → (⟦<ItemType as PartialEq>⟧.eq a b ≡ true) ↔ (a ≡ b) }
    ensures width { (a b : Width) → (⟦<Width as PartialEq>⟧.eq a b ≡ true) ↔ (a ≡ b) }
    ensures contents { (a b : Contents) → (⟦<Contents as PartialEq>⟧.eq a b ≡ true) ↔ (a ≡ b) }
    ensures header { (a b : Header) → (⟦<Header as PartialEq>⟧.eq a b ≡ true) ↔ (a ≡ b) }
    ensures error { (a b : ContainerError) → (⟦<ContainerError as PartialEq>⟧.eq a b ≡ true)
        ↔ (a ≡ b) }
{}

/// States that a clone is the value itself, and that cloning can't fail.
pub fn clones_are_the_same()
    ensures kind { (a clone : Kind) → ⟦<Kind as Clone>⟧.is_clone a clone ↔ (clone ≡ a) }
    ensures item { (a clone : ItemType) → ⟦<ItemType as Clone>⟧.is_clone a clone ↔ (clone ≡ a) }
    ensures width { (a clone : Width) → ⟦<Width as Clone>⟧.is_clone a clone ↔ (clone ≡ a) }
    ensures contents { (a clone : Contents) → ⟦<Contents as Clone>⟧.is_clone a clone ↔ (clone ≡ a) }
    ensures header { (a clone : Header) → ⟦<Header as Clone>⟧.is_clone a clone ↔ (clone ≡ a) }
    ensures error { (a clone : ContainerError) → ⟦<ContainerError as Clone>⟧.is_clone a clone
        ↔ (clone ≡ a) }
    ensures infallible_kind { (a : Kind) → ⟦<Kind as Clone>⟧.is_infallible a }
    ensures infallible_item { (a : ItemType) → ⟦<ItemType as Clone>⟧.is_infallible a }
    ensures infallible_width { (a : Width) → ⟦<Width as Clone>⟧.is_infallible a }
    ensures infallible_contents { (a : Contents) → ⟦<Contents as Clone>⟧.is_infallible a }
    ensures infallible_header { (a : Header) → ⟦<Header as Clone>⟧.is_infallible a }
    ensures infallible_error { (a : ContainerError) → ⟦<ContainerError as Clone>⟧.is_infallible a }
{}
