//! The tree of a UPF text: its commands, in their order.

use pe_base::Name;
use sqlite_items::Items;

/// The commands of a UPF text, in the order of the text.
#[derive(Debug, Drop)]
pub struct Intent {
    pub commands: Items<Command>,
}

/// Which way a supply port leads, seen from the design.
#[derive(Clone, Copy, Debug, PartialEq, Eq)]
pub enum Flow {
    Inward,
    Outward,
}

/// Which ports of a domain a strategy is for.
#[derive(Clone, Copy, Debug, PartialEq, Eq)]
pub enum Side {
    Inputs,
    Outputs,
    Both,
}

/// When a control signal acts: at a value or at an edge.
#[derive(Clone, Copy, Debug, PartialEq, Eq)]
pub enum Sense {
    High,
    Low,
    Posedge,
    Negedge,
}

/// A command: a variant for each, and a field for each option, which is `None` or false where the option is not written.
/// Names and words are the bytes of the text: of a quoted text what stands between the quotes, of a braced expression what
/// stands between the braces, white space and all.
#[derive(Debug, Drop)]
pub enum Command {
    /// `upf_version WORD`
    UpfVersion(Name),
    /// `set_design_top MODULE`
    SetDesignTop(Name),
    /// `create_power_domain NAME`
    CreatePowerDomain {
        name: Name,
        /// `-elements LIST`
        elements: Option<Items<Name>>,
        /// `-include_scope`
        include_scope: bool,
        /// `-supply {primary SET}`
        primary: Option<Name>,
    },
    /// `create_supply_port NAME`
    CreateSupplyPort {
        name: Name,
        /// `-direction in`, or `out`
        direction: Option<Flow>,
        /// `-domain DOMAIN`
        domain: Option<Name>,
    },
    /// `create_supply_net NAME`
    CreateSupplyNet {
        name: Name,
        /// `-domain DOMAIN`
        domain: Option<Name>,
        /// `-reuse`
        reuse: bool,
    },
    /// `connect_supply_net NAME -ports LIST`
    ConnectSupplyNet {
        name: Name,
        ports: Items<Name>,
    },
    /// `create_supply_set NAME`
    CreateSupplySet {
        name: Name,
        /// `-function {power NET}`
        power: Option<Name>,
        /// `-function {ground NET}`
        ground: Option<Name>,
    },
    /// `set_domain_supply_net DOMAIN`
    SetDomainSupplyNet {
        /// The domain.
        name: Name,
        /// `-primary_power_net NET`
        power: Option<Name>,
        /// `-primary_ground_net NET`
        ground: Option<Name>,
    },
    /// `create_power_switch NAME`
    CreatePowerSwitch {
        name: Name,
        /// `-domain DOMAIN`
        domain: Option<Name>,
        /// `-output_supply_port {PORT NET}`
        output: (Name, Name),
        /// `-input_supply_port {PORT NET}`
        input: (Name, Name),
        /// `-control_port {PORT NET}`, each in the order of the text
        controls: Items<(Name, Name)>,
        /// `-on_state {STATE PORT {EXPRESSION}}`
        on: (Name, Name, Name),
        /// `-off_state {STATE {EXPRESSION}}`, each in the order of the text
        off: Items<(Name, Name)>,
    },
    /// `add_port_state PORT`
    AddPortState {
        port: Name,
        /// `-state {STATE WORDS}`, of one to three words, each in the order of the text
        states: Items<(Name, Items<Name>)>,
    },
    /// `create_pst NAME -supplies LIST`
    CreatePst {
        name: Name,
        supplies: Items<Name>,
    },
    /// `add_pst_state NAME -pst TABLE -state LIST`
    AddPstState {
        name: Name,
        /// `-pst TABLE`
        table: Name,
        /// `-state LIST`
        states: Items<Name>,
    },
    /// `set_isolation NAME`
    SetIsolation {
        name: Name,
        /// `-domain DOMAIN`
        domain: Name,
        /// `-applies_to inputs`, `outputs` or `both`
        applies_to: Option<Side>,
        /// `-elements LIST`
        elements: Option<Items<Name>>,
        /// `-clamp_value WORD`
        clamp: Option<Name>,
        /// `-isolation_signal SIGNAL`
        signal: Option<Name>,
        /// `-isolation_sense high`, or `low`
        sense: Option<Sense>,
        /// `-isolation_supply SET`, or `-isolation_supply_set SET`
        supply: Option<Name>,
        /// `-location WORD`
        location: Option<Name>,
        /// `-no_isolation`
        no_isolation: bool,
    },
    /// `set_retention NAME`
    SetRetention {
        name: Name,
        /// `-domain DOMAIN`
        domain: Name,
        /// `-elements LIST`
        elements: Option<Items<Name>>,
        /// `-retention_supply SET`, or `-retention_supply_set SET`
        supply: Option<Name>,
        /// `-save_signal {SIGNAL SENSE}`
        save: Option<(Name, Sense)>,
        /// `-restore_signal {SIGNAL SENSE}`
        restore: Option<(Name, Sense)>,
    },
    /// `set_level_shifter`, `map_retention_cell` or `map_power_switch`, which have no effect, with the words behind it: a
    /// braced group is one word.
    Ignored {
        command: Name,
        words: Items<Name>,
    },
}
