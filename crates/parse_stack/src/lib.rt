//! What is open around the place that the parser has reached, held in flat lists, and how whole parts are put together.
#![tactic(auto)]

mod declared;
mod fail;
mod frames;
mod heights;
mod kinds;
mod lows;
mod nodes;
mod parts;
mod places;
mod reduce;
mod rows;
mod stacks;
mod words;

pub use declared::{
    is_in_file, is_object, is_skipped_name, may_be_array, may_be_function, may_be_whole,
    may_have_attribute, no_declarators,
};
pub use fail::StepFail;
pub use frames::{Base, Bind, Frame, Nest, Opened, Top, Valuing};
pub use heights::{depth, is_first, least, place_depth};
pub use kinds::{EnumHead, Test};
pub use lows::{
    around_high, attributed_high, attributes_height, declared_high, inner_high, is_list,
    listing_high, parameters_high,
};
pub use nodes::{call_node, enumeration, no_parts, plain_more, sizeof_node, tested, valued_more};
pub use parts::{DeclaratorRow, EnumRow, ParamRow, Part, PartRow, Spoken, TallForm};
pub use places::{
    Around, Attributed, Declared, Declaring, FunctionHead, Inner, Listing, Opening, Outer,
    OuterFrame, Place, Wrap,
};
pub use reduce::{above, level, make_part, wrapped};
pub use rows::{
    add_attribute, add_declarator, add_parameter, add_part, add_statement, add_word, say, unspoken,
};
pub use stacks::{Folded, Held, fold, pop, push, push_outer, rooted};
pub use words::{
    is_typed, is_typedef, is_void, site_of_place, with_named, with_storage, with_type,
};
